// Runs of the strategy's steps, with a budget.
#![tactic(auto)]

ghost use Rattle.std.specs.Prelude.{◌≡◌};
ghost use Rattle.calls.specs.Chains.{run_refusal};
ghost use Rattle.calls.specs.Calls.{run_of, run_with};
ghost use Rattle.call_answers.specs.AnswerMeaning.{due_of, after_call, beside_index};
ghost use Rattle.call_run.specs.RunMeaning.{ran_of};

use call_answers::Refusal;
use run_steps::Ended;

// Why a run is refused, apart from its index. Nothing is written yet.
fn refuse(sheet: &[u16]) -> Result<(), Refusal>
    ensures { due_of result ≡ run_refusal sheet.now }
{
    if sheet_check::is_sheet(sheet) {
        Ok(())
    } else {
        Err(Refusal::Sheet)
    }
}

// The strategy's steps, as many as the budget allows or as there are, on a sheet without an index.
pub fn run(sheet: &mut [u16], budget: u64) -> Result<Ended, Refusal>
    ensures { after_call (ran_of result) sheet.new ≡ run_of sheet.old budget }
{
    refuse(sheet)?;
    Ok(run_steps::run_on(sheet, budget))
}

// The same on a sheet with its index. Once all is tested the steps are done, and the index counted anew.
pub fn run_with(sheet: &mut [u16], index: &mut [u16], budget: u64) -> Result<Ended, Refusal>
    ensures { after_call (ran_of result) (beside_index sheet.new index.new)
        ≡ run_with sheet.old index.old budget }
{
    let own = refuse(sheet);
    call_index::refuse(sheet, index, own)?;
    let end = run_steps::run_on(sheet, budget);
    sheet_index::fill(sheet, index);
    Ok(end)
}
