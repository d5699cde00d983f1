// The "complete" question: a sheet, with the book and the lines that say which options matter.
#![tactic(auto)]

ghost use Rattle.std.specs.Prelude.{◌≡◌};
ghost use Rattle.calls.specs.Calls.{complete_of};
ghost use Rattle.order_lines.specs.LineMeaning.{order};
ghost use Rattle.call_complete.specs.CompleteMeaning.{completed_of};

use call_answers::Refusal;
use order_lines::{Line, SLOTS};
use report_marks::NAMED_LENGTH;

// The "complete" question, by a copy of the lines. The options that the book or a counted line names go into one table, and what the sheet
// derives into another beside it; the sheet's own mentions are not asked for.
pub fn complete(
    sheet: &[u16],
    book: &[u8],
    lines: [Line; SLOTS],
    count: u16,
) -> Result<bool, Refusal>
    ensures { completed_of result ≡ complete_of (order sheet.now lines count) book.now }
{
    call_orders::refuse(sheet, book, lines, count)?;
    let mut named = [0u8; NAMED_LENGTH];
    order_named::note_bodies(book, &mut named);
    order_named::note_lines(lines, count, &mut named);
    Ok(report_marks::is_complete(sheet, &named))
}
