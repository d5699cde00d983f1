// Withdrawals: a line taken back, and the sheet made anew without it.
#![tactic(auto)]

ghost use Rattle.std.specs.Prelude.{◌≡◌, ◌≤◌};
ghost use Rattle.calls.specs.Chains.{withdraw_refusal};
ghost use Rattle.calls.specs.Calls.{withdraw_with};
ghost use Rattle.calls.specs.Lines.{most_lines};
ghost use Rattle.theory_formats.specs.Loading.{Accepted};
ghost use Rattle.call_answers.specs.AnswerMeaning.{done_of, due_of, after_call, beside_index, on_indexed_sheet};
ghost use Rattle.order_lines.specs.LineMeaning.{order};
ghost use Rattle.call_withdrawal.specs.LastTests.{line_refusal};

use call_answers::Refusal;
use common_weight::{LITERAL_WEIGHT, MOST_WEIGHT};
use order_lines::{Line, SLOTS};

// Why line k cannot be taken back, where the book is accepted and the lines are in order.
fn refuse_line(book: &[u8], count: u16, k: u64) -> Result<(), Refusal>
    requires { Accepted book.now × (count ≤ most_lines) }
    ensures { due_of result ≡ line_refusal book.now count k }
{
    if u64::from(count) <= k {
        return Err(Refusal::Line);
    }
    let weight = common_weight::weigh_book(book);
    if MOST_WEIGHT < common_weight::add_weights(weight, LITERAL_WEIGHT * (count - 1)) {
        return Err(Refusal::Full);
    }
    Ok(())
}

// Why a withdrawal is refused, apart from its index. Nothing is written yet.
fn refuse(
    sheet: &[u16],
    book: &[u8],
    lines: [Line; SLOTS],
    count: u16,
    k: u64,
) -> Result<(), Refusal>
    ensures { due_of result ≡ withdraw_refusal (order sheet.now lines count) book.now k }
{
    call_orders::refuse(sheet, book, lines, count)?;
    refuse_line(book, count, k)
}

// The withdrawal of line k, by a copy of the lines: what it answers, and what it leaves of the sheet and the index. Once all is tested the
// book is loaded and the standing lines get their marks, of which none can be refused; then the index is counted anew.
pub fn withdraw(
    sheet: &mut [u16],
    book: &[u8],
    lines: [Line; SLOTS],
    count: u16,
    index: &mut [u16],
    k: u64,
) -> Result<(), Refusal>
    ensures { after_call (done_of result) (beside_index sheet.new index.new)
        ≡ on_indexed_sheet
        (withdraw_with (order sheet.old lines count) book.now index.old k) }
{
    let own = refuse(sheet, book, lines, count, k);
    call_index::refuse(sheet, index, own)?;
    book_load::fill_sheet(book, sheet);
    order_marks::put_standing(sheet, lines, usize::from(count), k as usize);
    sheet_index::fill(sheet, index);
    Ok(())
}
