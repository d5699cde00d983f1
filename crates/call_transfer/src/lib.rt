// Books into sheets, and sheets into books.
#![tactic(auto)]

ghost use Rattle.std.specs.Prelude.{◌≡◌};
ghost use Rattle.calls.specs.Calls.{load_of, write_of};
ghost use Rattle.call_answers.specs.AnswerMeaning.{done_of, found_of, after_call};

use call_answers::Refusal;
use common_limits::SHEET_LENGTH;

// The loader.
pub fn load(book: &[u8], target: &mut [u16]) -> Result<(), Refusal>
    ensures { after_call (done_of result) target.new ≡ load_of book.now target.old }
{
    if target.len() != SHEET_LENGTH {
        return Err(Refusal::Sheet);
    }
    call_books::check(book)?;
    book_load::fill_sheet(book, target);
    Ok(())
}

// The writer.
pub fn write(sheet: &[u16], book: &[u8], out: &mut [u8]) -> Result<usize, Refusal>
    ensures { after_call (found_of result) out.new
        ≡ write_of sheet.now book.now out.old }
{
    if !sheet_check::is_sheet(sheet) {
        return Err(Refusal::Sheet);
    }
    call_books::check(book)?;
    if common_nodes::word_at(book, 0) != book_write::options_in(sheet) {
        return Err(Refusal::Sheet);
    }
    let due = book_write::written_length(sheet);
    if out.len() < due {
        return Err(Refusal::Output);
    }
    book_write::put_book(sheet, book, out);
    Ok(due)
}
