// A sheet with the book and the lines that are lent beside it: why they are refused, in every call that takes the three.
#![tactic(auto)]

ghost use Rattle.std.specs.Prelude.{◌≡◌};
ghost use Rattle.calls.specs.Chains.{order_refusal};
ghost use Rattle.call_answers.specs.AnswerMeaning.{due_of};
ghost use Rattle.order_lines.specs.LineMeaning.{order};

use call_answers::Refusal;
use order_lines::{Line, SLOTS};

// The sheet is tested first, then the book, then that both have the same options, then the lines.
pub fn refuse(sheet: &[u16], book: &[u8], lines: [Line; SLOTS], count: u16) -> Result<(), Refusal>
    ensures { due_of result ≡ order_refusal (order sheet.now lines count) book.now }
{
    if !sheet_check::is_sheet(sheet) {
        return Err(Refusal::Sheet);
    }
    call_books::check(book)?;
    if common_nodes::word_at(book, 0) != usize::from(sheet[0]) {
        return Err(Refusal::Sheet);
    }
    if !order_check::are_in_order(lines, count, sheet[0]) {
        return Err(Refusal::Sheet);
    }
    Ok(())
}
