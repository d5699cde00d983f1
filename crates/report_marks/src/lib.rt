// The core of the report and of the "complete" question: what is derived from a sheet, and what is written and said of it.
#![tactic(auto)]

ghost use Rattle.std.specs.Prelude.{◌≡◌, true, not, ◌&&◌, ◌||◌, ◌≤◌, ◌<◌, length, replicate};
ghost use Rattle.model.specs.Base.{all};
ghost use Rattle.model.specs.Limits.{most_options, most_literals};
ghost use Rattle.model.specs.Propagation.{count_from};
ghost use Rattle.model.specs.Sheet.{options_in, report_in};
ghost use Rattle.calls.specs.Named.{complete_among};
ghost use Rattle.theory_meaning.specs.FailedLiterals.{HasReport, mark_in, marks_in, is_marked};
ghost use Rattle.theory_forms.specs.Sheets.{Formed};
ghost use Rattle.report_marks.specs.Noted.{is_noted};

use common_limits::{MOST_LITERALS, MOST_OPTIONS, SHEET_LENGTH};
use report_parts::LINKS_LENGTH;
use report_propagation::Known;

// The places of a table of options that are named: one for each option, and one more, which whoever fills the table may write and nobody
// reads.
pub const NAMED_LENGTH: usize = MOST_OPTIONS + 1;

// All that is forced becomes known: each part is looked at, and again where the trail of what became known touches it. Whether the
// sheet is contradictory.
fn propagate(sheet: &[u16], known: &mut Known) -> bool
    requires formed { Formed sheet.now }
    requires failed_value { known.old.failed ≡ replicate most_literals 0 }
    requires trail_len { length known.old.trail ≡ most_literals }
    ensures has_report { HasReport sheet.now known.new.failed }
    ensures value { result ≡ (report_in sheet.now).contradictory }
{
    let mut ends = [0u16; SHEET_LENGTH];
    let mut homes = [0u16; SHEET_LENGTH];
    let mut links = [0u16; LINKS_LENGTH];
    let mut seen = [0u16; SHEET_LENGTH];
    report_parts::find(sheet, &mut ends, &mut homes);
    report_parts::link(sheet, &mut links);
    report_propagation::follow(sheet, &ends, &homes, &links, &mut seen, known)
}

// The mark of an option.
fn mark_of(failed: &[u8; MOST_LITERALS], v: usize) -> u8
    requires { v < most_options }
    ensures { result ≡ mark_in failed.now v }
{
    if failed[2 * v + 1] == 1 {
        1
    } else if failed[2 * v] == 1 {
        2
    } else {
        0
    }
}

// The mark of each option, or all 3.
fn put_marks(failed: &[u8; MOST_LITERALS], contradictory: bool, out: &mut [u8])
    requires { length out.old ≤ most_options }
    ensures { out.new ≡ marks_in contradictory failed.now (length out.old) }
{
    for (v, mark) in out.iter_mut().enumerate() {
        *mark = if contradictory { 3 } else { mark_of(failed, v) };
    }
}

// The option is named, and neither in nor out.
fn is_missing(failed: &[u8; MOST_LITERALS], named: &[u8; NAMED_LENGTH], v: usize) -> bool
    requires { v < most_options }
    ensures { result ≡ (is_noted named.now v && not (is_marked failed.now v)) }
{
    named[v] == 1 && mark_of(failed, v) == 0
}

// Each of the first n options that are named is in or out.
fn all_marked(failed: &[u8; MOST_LITERALS], named: &[u8; NAMED_LENGTH], n: usize) -> bool
    requires { n ≤ most_options }
    ensures { result
        ≡ all (λ v. not (is_noted named.now v) || is_marked failed.now v) (count_from 0 n) }
{
    (0..n).all(|v| !is_missing(failed, named, v))
}

// What a report of a sheet says, whether it is contradictory, and what it writes.
pub fn put_report(sheet: &[u16], out: &mut [u8]) -> bool
    requires { Formed sheet.now × (length out.old ≡ options_in sheet.now) }
    ensures { (result ≡ (report_in sheet.now).contradictory) × (out.new ≡ (report_in sheet.now).marks) }
{
    let mut known = Known::nothing();
    let contradictory = propagate(sheet, &mut known);
    put_marks(&known.failed, contradictory, out);
    contradictory
}

// Whether a sheet is not contradictory and each of its options that are named is in or out.
pub fn is_complete(sheet: &[u16], named: &[u8; NAMED_LENGTH]) -> bool
    requires { Formed sheet.now }
    ensures { result
        ≡ complete_among (is_noted named.now) (options_in sheet.now)
        (report_in sheet.now) }
{
    let mut known = Known::nothing();
    !propagate(sheet, &mut known) && all_marked(&known.failed, named, usize::from(sheet[0]))
}
