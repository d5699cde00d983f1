// The report.
#![tactic(auto)]

ghost use Rattle.std.specs.Prelude.{◌≡◌};
ghost use Rattle.calls.specs.Calls.{report_of};
ghost use Rattle.call_answers.specs.AnswerMeaning.{after_call};
ghost use Rattle.call_report.specs.ReportMeaning.{reported_of};

use call_answers::Refusal;

// The report: whether the sheet is contradictory, and a byte for each option at the start of the output, whose rest stays.
pub fn report(sheet: &[u16], out: &mut [u8]) -> Result<bool, Refusal>
    ensures { after_call (reported_of result) out.new ≡ report_of sheet.now out.old }
{
    if !sheet_check::is_sheet(sheet) {
        return Err(Refusal::Sheet);
    }
    let n = usize::from(sheet[0]);
    if out.len() < n {
        return Err(Refusal::Output);
    }
    Ok(report_marks::put_report(sheet, &mut out[..n]))
}
