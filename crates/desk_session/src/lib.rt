// One order at the desk: a book and the lines keyed, and all that is printed.
#![tactic(auto)]

ghost use Rattle.std.specs.Prelude.{◌≡◌, false, ◌++◌, [], ◌≤◌, length, replicate};
ghost use Rattle.std.proofs.Math.Option.{none};
ghost use Rattle.model.specs.Book.{options_of, codes_of};
ghost use Rattle.calls.specs.Chains.{book_refusal};
ghost use Rattle.calls.specs.Calls.{run_of, report_of};
ghost use Rattle.calls.specs.Desk.{printed, first_line, option_lines, desk_budget, screen_length};
ghost use Rattle.call_answers.specs.AnswerMeaning.{done_of};
ghost use Rattle.common_decimal.specs.Placed.{after, filled};
ghost use Rattle.desk_session.specs.Session.{told_lines, ran_lines, session_of};

use call_answers::Refusal;
use common_limits::SHEET_LENGTH;

// The bytes of the desk's screen, which a report is written to, whatever the number of options.
const SCREEN_LENGTH: usize = 512;

// The line of a refusal, of an answer that is one.
fn put_refused(answer: Result<(), Refusal>, out: &mut [u8]) -> usize
    requires { 16384 ≤ length out.old }
    ensures { after result out.new ≡ filled (printed (done_of answer) (λ u. [])) out.old }
{
    let Err(r) = answer else {
        return 0;
    };
    desk_printing::put_refusal(r, out)
}

// The first line, and a line for each option, where there is no contradiction. There may be more marks than options.
fn put_lines(book: &[u8], marks: &[u8], settled: bool, count: u64, out: &mut [u8]) -> usize
    requires { (book_refusal book.now ≡ none)
        × (options_of book.now ≤ length marks.now)
        × (16384 ≤ length out.old) }
    ensures { after result out.new
        ≡ filled
        (first_line false (record { settled = settled; count = count })
        ++ option_lines (codes_of book.now) marks.now)
        out.old }
{
    let n = common_nodes::word_at(book, 0);
    let at = desk_printing::put_first(false, settled, count, out);
    at + desk_printing::put_options(&book[8..], &marks[..n], &mut out[at..])
}

// What a report to the screen says, after a run.
fn put_told(book: &[u8], sheet: &[u16], settled: bool, count: u64, out: &mut [u8]) -> usize
    requires { (book_refusal book.now ≡ none)
        × (16384 ≤ length out.old) }
    ensures { after result out.new
        ≡ filled
        (told_lines
        book.now
        (record { settled = settled; count = count })
        (report_of sheet.now (replicate screen_length 0)))
        out.old }
{
    let mut screen = [0u8; SCREEN_LENGTH];
    match call_report::report(sheet, &mut screen) {
        Ok(false) => put_lines(book, &screen, settled, count, out),
        Ok(true) => desk_printing::put_first(true, settled, count, out),
        Err(r) => desk_printing::put_refusal(r, out),
    }
}

// The run and the report.
fn put_ran(book: &[u8], sheet: &mut [u16], out: &mut [u8]) -> usize
    requires { (book_refusal book.now ≡ none)
        × (16384 ≤ length out.old) }
    ensures { after result out.new
        ≡ filled (ran_lines book.now (run_of sheet.old desk_budget)) out.old }
{
    match call_run::run(sheet, 100000) {
        Ok(end) => put_told(book, sheet, end.settled, end.count, out),
        Err(r) => desk_printing::put_refusal(r, out),
    }
}

// The whole order: the book loaded, the lines keyed, one run and the report. Answers the length of what is printed.
pub fn session(book: &[u8], input: &[u8], out: &mut [u8]) -> usize
    ensures { after result out.new ≡ session_of book.now input.now out.old }
{
    if out.len() < 16384 {
        return 0;
    }
    let mut sheet = [0u16; SHEET_LENGTH];
    let loaded = call_transfer::load(book, &mut sheet);
    let Ok(()) = loaded else {
        return put_refused(loaded, out);
    };
    let keyed = desk_keying::key_lines(book, input, &mut sheet);
    let Ok(()) = keyed else {
        return put_refused(keyed, out);
    };
    put_ran(book, &mut sheet, out)
}
