// The single step: one rule at one place of a sheet, for child i and inner child j.
#![tactic(auto)]

ghost use Rattle.std.specs.Prelude.{◌≡◌};
ghost use Rattle.calls.specs.Chains.{step_refusal};
ghost use Rattle.calls.specs.Calls.{step_with};
ghost use Rattle.call_answers.specs.AnswerMeaning.{done_of, due_of, after_call, beside_index};

use call_answers::Refusal;

// Why a step is refused, apart from its index. Nothing is written yet.
fn refuse(sheet: &[u16], rule: u64, place: u64, i: u64, j: u64) -> Result<(), Refusal>
    ensures { due_of result ≡ step_refusal sheet.now rule place i j }
{
    if !sheet_check::is_sheet(sheet) {
        return Err(Refusal::Sheet);
    }
    if !rule_table::is_rule(rule) {
        return Err(Refusal::Rule);
    }
    if u64::from(sheet[1]) <= place {
        return Err(Refusal::Step);
    }
    let from = 2 + place as usize;
    if !step::applies(&sheet[from..], rule as usize, i, j) {
        return Err(Refusal::Step);
    }
    Ok(())
}

// A single step. Once all is tested the step is done, and the index counted anew.
pub fn step(
    sheet: &mut [u16],
    index: &mut [u16],
    rule: u64,
    place: u64,
    i: u64,
    j: u64,
) -> Result<(), Refusal>
    ensures { after_call (done_of result) (beside_index sheet.new index.new)
        ≡ step_with sheet.old index.old rule place i j }
{
    let own = refuse(sheet, rule, place, i, j);
    call_index::refuse(sheet, index, own)?;
    step::apply(sheet, rule as usize, place as usize, i as usize, j as usize);
    sheet_index::fill(sheet, index);
    Ok(())
}
