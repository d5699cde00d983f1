// The index of mentions, for the calls: what a call that is lent one is refused for, and the call that fills one.
#![tactic(auto)]

ghost use Rattle.std.specs.Prelude.{true, ◌≡◌};
ghost use Rattle.std.proofs.Math.Option.{none};
ghost use Rattle.model.specs.Base.{is_some};
ghost use Rattle.model.specs.Sheet.{is_sheet};
ghost use Rattle.calls.specs.Chains.{is_early, early, index_refusal};
ghost use Rattle.calls.specs.Calls.{fill_of};
ghost use Rattle.call_answers.specs.AnswerMeaning.{refusal_of, due_of, done_of, after_call};

use call_answers::Refusal;

// Whether a refusal comes before the 11 of an index: a book's, 1 to 6, and every other 11.
fn is_early(r: Refusal) -> bool
    ensures { result ≡ is_early (refusal_of r) }
{
    let n = call_answers::number(r);
    n <= 6 || n == 11
}

// Whether such a refusal is due.
fn refuses_early(own: Result<(), Refusal>) -> bool
    ensures { result ≡ is_some (early (due_of own)) }
{
    match own {
        Ok(()) => false,
        Err(r) => is_early(r),
    }
}

// What a call with an index is refused for, by what it is refused for without one. Nothing is read of a sheet that is none.
pub fn refuse(sheet: &[u16], index: &[u16], own: Result<(), Refusal>) -> Result<(), Refusal>
    requires { early (due_of own) ≡ none → is_sheet sheet.now ≡ true }
    ensures { due_of result ≡ index_refusal sheet.now index.now (due_of own) }
{
    if refuses_early(own) {
        return own;
    }
    if sheet_index::is_stale(sheet, index) {
        return Err(Refusal::Sheet);
    }
    own?;
    if sheet_index::is_short(sheet, index) {
        Err(Refusal::Output)
    } else {
        Ok(())
    }
}

// The index of any sheet, whatever it held.
pub fn fill(sheet: &[u16], index: &mut [u16]) -> Result<(), Refusal>
    ensures { after_call (done_of result) index.new ≡ fill_of sheet.now index.old }
{
    if !sheet_check::is_sheet(sheet) {
        return Err(Refusal::Sheet);
    }
    if sheet_index::is_short(sheet, index) {
        return Err(Refusal::Output);
    }
    sheet_index::fill(sheet, index);
    Ok(())
}
