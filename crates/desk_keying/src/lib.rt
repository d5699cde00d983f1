// The desk's lines: choices keyed one after another.
#![tactic(auto)]

ghost use Rattle.std.specs.Prelude.{◌≡◌, ◌||◌, ◌≤◌, eqb, length};
ghost use Rattle.calls.specs.Desk.{lines, all_keyed, with_no_lines};
ghost use Rattle.call_answers.specs.AnswerMeaning.{done_of, found_of, after_call, on_sheet};
ghost use Rattle.order_lines.specs.LineMeaning.{order};
ghost use Rattle.desk_keying.specs.Endings.{ending, asked, line_keyed};

use call_answers::Refusal;
use order_lines::{Line, MOST_LINES, SLOTS};

// A plus or a minus.
fn is_sign(x: u8) -> bool
    ensures { result ≡ (eqb x 43 || eqb x 45) }
{
    x == b'+' || x == b'-'
}

// The option that a line asks for, by its sign and its code.
fn read_line(book: &[u8], line: &[u8]) -> Result<usize, Refusal>
    ensures { found_of result ≡ asked book.now line.now }
{
    if line.len() == 0 {
        return Err(Refusal::Unknown);
    }
    if !is_sign(line[0]) {
        return Err(Refusal::Unknown);
    }
    call_books::lookup(book, &line[1..])
}

// One line keyed beside those before it. Answers the option that it names.
pub fn key_line(
    book: &[u8],
    line: &[u8],
    sheet: &mut [u16],
    lines: [Line; SLOTS],
    count: u16,
) -> Result<usize, Refusal>
    ensures { after_call (found_of result) sheet.new
        ≡ line_keyed book.now line.now (order sheet.old lines count) }
{
    if count == MOST_LINES {
        return Err(Refusal::List);
    }
    let v = read_line(book, line)?;
    let answer = call_keying::key(sheet, lines, count, v as u64, line[0] == b'-');
    let Err(r) = answer else {
        return Ok(v);
    };
    Err(r)
}

// Where the first line ends: the place of its line end, or the end of the input.
fn line_end(s: &[u8]) -> usize
    ensures { (result ≡ ending s.now)
        × (result ≤ length s.now) }
{
    for (i, byte) in s.iter().enumerate() {
        if *byte == b'\n' {
            return i;
        }
    }
    s.len()
}

// All lines, in order, until one is refused: the desk begins with no lines, and keeps those that it keyed.
pub fn key_lines(book: &[u8], input: &[u8], sheet: &mut [u16]) -> Result<(), Refusal>
    ensures { after_call (done_of result) sheet.new
        ≡ on_sheet (all_keyed book.now (lines input.now) (with_no_lines sheet.old)) }
{
    let mut keyed = [Line {
        option: 0,
        negative: false,
    }; SLOTS];
    let mut count: u16 = 0;
    let mut at = 0;
    // Each turn goes on by a line.
    while at < input.len() {
        let end = at + line_end(&input[at..]);
        let v = key_line(book, &input[at..end], sheet, keyed, count)?;
        keyed[usize::from(count)] = Line {
            option: v as u16,
            negative: input[at] == b'-',
        };
        count += 1;
        at = if end < input.len() { end + 1 } else { end };
    }
    Ok(())
}
