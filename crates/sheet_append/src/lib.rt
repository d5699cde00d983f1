// The core of a choice: a literal appended as the root's last child.
#![tactic(auto)]

ghost use Rattle.std.specs.Prelude.{◌≡◌, ◌+◌, ◌≤◌, ◌<◌};
ghost use Rattle.model.specs.Literal.{literal};
ghost use Rattle.model.specs.Code.{weight, leaf, number_of};
ghost use Rattle.model.specs.Limits.{most_options, most_weight, literal_weight};
ghost use Rattle.model.specs.Sheet.{options_in, nodes_in};
ghost use Rattle.model.specs.Results.{appended};
ghost use Rattle.theory_forms.specs.Sheets.{Formed};

use common_limits::{BARRED_KIND, PLAIN_KIND};

// The number of a literal of an option.
pub fn number_of(option: u16, negative: bool) -> u16
    requires { option < most_options }
    ensures { result ≡ number_of (leaf (literal option negative)) }
{
    if negative {
        BARRED_KIND + option
    } else {
        PLAIN_KIND + option
    }
}

// A literal on a sheet that has room for it: one more child of the root, at the end.
pub fn append(sheet: &mut [u16], option: u16, negative: bool)
    requires formed { Formed sheet.old }
    requires option_bound { (option < options_in sheet.old) × (weight (nodes_in sheet.old) + literal_weight ≤ most_weight) }
    ensures { sheet.new ≡ appended sheet.old (literal option negative) }
{
    let used = usize::from(sheet[1]);
    let end = 2 + used;
    sheet[1] += 1;
    sheet[2] += 1;
    sheet[end] = number_of(option, negative);
}
