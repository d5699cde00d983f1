// Keyings: an option taken or barred, as a mark on the sheet beside the lines of its order.
#![tactic(auto)]

ghost use Rattle.std.specs.Prelude.{◌≡◌, true};
ghost use Rattle.model.specs.Sheet.{is_sheet};
ghost use Rattle.calls.specs.Chains.{key_refusal};
ghost use Rattle.calls.specs.Calls.{key_of, key_with};
ghost use Rattle.call_answers.specs.AnswerMeaning.{done_of, due_of, after_call, on_sheet, beside_index, on_indexed_sheet};
ghost use Rattle.order_lines.specs.LineMeaning.{order};
ghost use Rattle.call_keying.specs.Marks.{mark_refusal};

use call_answers::Refusal;
use common_weight::{LITERAL_WEIGHT, MOST_WEIGHT};
use order_lines::{Line, MOST_LINES, SLOTS};

// Why no mark can be put, where the sheet and the lines are good.
fn refuse_mark(sheet: &[u16], count: u16, option: u64) -> Result<(), Refusal>
    requires { is_sheet sheet.now ≡ true }
    ensures { due_of result ≡ mark_refusal sheet.now count option }
{
    if count == MOST_LINES {
        return Err(Refusal::List);
    }
    if u64::from(sheet[0]) <= option {
        return Err(Refusal::Unknown);
    }
    let weight = common_weight::weigh_sheet(sheet);
    if MOST_WEIGHT < common_weight::add_weights(weight, LITERAL_WEIGHT) {
        return Err(Refusal::Full);
    }
    Ok(())
}

// Why a keying is refused, apart from its index. Nothing is written yet.
fn refuse(sheet: &[u16], lines: [Line; SLOTS], count: u16, option: u64) -> Result<(), Refusal>
    ensures { due_of result ≡ key_refusal (order sheet.now lines count) option }
{
    if !sheet_check::is_sheet(sheet) {
        return Err(Refusal::Sheet);
    }
    if !order_check::are_in_order(lines, count, sheet[0]) {
        return Err(Refusal::Sheet);
    }
    refuse_mark(sheet, count, option)
}

// A keying beside any lines, of which a copy is given: what it answers, and what it leaves of the sheet.
pub fn key(
    sheet: &mut [u16],
    lines: [Line; SLOTS],
    count: u16,
    option: u64,
    negative: bool,
) -> Result<(), Refusal>
    ensures { after_call (done_of result) sheet.new
        ≡ on_sheet (key_of (order sheet.old lines count) option negative) }
{
    refuse(sheet, lines, count, option)?;
    sheet_append::append(sheet, option as u16, negative);
    Ok(())
}

// A keying with an index beside the sheet. The mark that it appends comes after all others, so of the index only its option's entry
// changes, and no other mark is counted again.
pub fn key_with(
    sheet: &mut [u16],
    lines: [Line; SLOTS],
    count: u16,
    index: &mut [u16],
    option: u64,
    negative: bool,
) -> Result<(), Refusal>
    ensures { after_call (done_of result) (beside_index sheet.new index.new)
        ≡ on_indexed_sheet (key_with (order sheet.old lines count) index.old option negative) }
{
    let own = refuse(sheet, lines, count, option);
    call_index::refuse(sheet, index, own)?;
    sheet_index::mention_last(index, option as usize, sheet[1]);
    sheet_append::append(sheet, option as u16, negative);
    Ok(())
}
