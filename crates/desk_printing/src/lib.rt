// What the desk program prints, written at the start of a lent slice; what stands after it stays.
#![tactic(auto)]

ghost use Rattle.std.specs.Prelude.{◌≡◌, ◌+◌, ◌*◌, ◌≤◌, ◌<◌, length, take, set};
ghost use Rattle.model.specs.Book.{characters, pieces};
ghost use Rattle.texts.specs.Decimals.{decimal};
ghost use Rattle.calls.specs.Refusals.{refusal_number};
ghost use Rattle.calls.specs.Desk.{line, mark_word, refused_word, first_line, option_lines};
ghost use Rattle.call_answers.specs.AnswerMeaning.{refusal_of};
ghost use Rattle.common_decimal.specs.Placed.{after, filled};

use call_answers::Refusal;

// A space and a line end at their places.
fn put_ends(out: &mut [u8], space: usize, end: usize)
    requires { (space < end)
        × (end < length out.old) }
    ensures { out.new ≡ set (set out.old space 32) end 10 }
{
    out[space] = b' ';
    out[end] = b'\n';
}

// Two words with a space between, as a line.
fn put_line(a: &[u8], b: &[u8], out: &mut [u8]) -> usize
    requires { length a.now + length b.now + 2 ≤ length out.old }
    ensures { after result out.new ≡ filled (line a.now b.now) out.old }
{
    let space = a.len();
    let next = space + 1;
    let end = next + b.len();
    put_ends(out, space, end);
    book_bytes::copy(a, space, out);
    book_bytes::copy(b, b.len(), &mut out[next..]);
    end + 1
}

// A word and a number, as a line.
fn put_counted(word: &[u8], n: u64, out: &mut [u8]) -> usize
    requires { length word.now + 22 ≤ length out.old }
    ensures { after result out.new ≡ filled (line word.now (decimal n)) out.old }
{
    let mut digits = [0u8; 20];
    let k = common_decimal::put_decimal(n, &mut digits);
    put_line(word, &digits[..k], out)
}

// The line of a refusal.
pub fn put_refusal(r: Refusal, out: &mut [u8]) -> usize
    requires { 35 ≤ length out.old }
    ensures { after result out.new
        ≡ filled (line refused_word (decimal (refusal_number (refusal_of r)))) out.old }
{
    put_counted(b"refused", call_answers::number(r) as u64, out)
}

// The first line: what a report and a run said, and the steps.
pub fn put_first(contradictory: bool, settled: bool, count: u64, out: &mut [u8]) -> usize
    requires { 35 ≤ length out.old }
    ensures { after result out.new
        ≡ filled (first_line contradictory (record { settled = settled; count = count })) out.old }
{
    if contradictory {
        put_counted(b"contradiction", count, out)
    } else if settled {
        put_counted(b"settled", count, out)
    } else {
        put_counted(b"stopped", count, out)
    }
}

// How many characters a code has: those before its zeros.
fn count_characters(code: &[u8]) -> usize
    requires { 13 ≤ length code.now }
    ensures { (result ≤ 13)
        × (take result code.now ≡ characters (take 13 code.now)) }
{
    for k in 0..13 {
        if code[k] == 0 {
            return k;
        }
    }
    13
}

// The line of an option, by its code and its mark.
fn put_option(code: &[u8], mark: u8, out: &mut [u8]) -> usize
    requires { (13 ≤ length code.now)
        × (19 ≤ length out.old) }
    ensures { after result out.new
        ≡ filled (line (characters (take 13 code.now)) (mark_word mark)) out.old }
{
    let end = count_characters(code);
    let name = &code[..end];
    if mark == 1 {
        return put_line(name, b"in", out);
    }
    if mark == 2 {
        return put_line(name, b"out", out);
    }
    put_line(name, b"open", out)
}

// The lines of all options, by their codes and their marks.
pub fn put_options(codes: &[u8], marks: &[u8], out: &mut [u8]) -> usize
    requires { (13 * length marks.now ≤ length codes.now)
        × (19 * length marks.now ≤ length out.old) }
    ensures { after result out.new
        ≡ filled
        (option_lines (pieces 13 (length marks.now) codes.now) marks.now)
        out.old }
{
    let mut at = 0;
    for (i, mark) in marks.iter().enumerate() {
        let code = 13 * i;
        at += put_option(&codes[code..], *mark, &mut out[at..]);
    }
    at
}
