// Rules 1 to 8: a constant among the children, and a single child.
#![tactic(auto)]

ghost use Rattle.std.specs.Prelude.{◌≡◌, true, ◌≤◌, ◌<◌, get_or};
ghost use Rattle.model.specs.Base.{is_some};
ghost use Rattle.model.specs.Code.{children};
ghost use Rattle.model.specs.Rules.{rewrite};
ghost use Rattle.theory_reading.specs.Spans.{child_at};
ghost use Rattle.theory_reading.specs.Stretches.{Stretch, forest_in};
ghost use Rattle.theory_rewriting.specs.Heads.{Headed, rewritten_to};
ghost use Rattle.rule_simplify.specs.Constants.{constant_for};

use common_limits::KIND_FACTOR_16;
use rule_table::{FALSE, TRUE};

// The constant that a rule of 1 to 6 looks for: false for 1, 3 and 5, true for 2, 4 and 6.
pub fn constant_for(rule: usize) -> u16
    requires { (1 ≤ rule) × (rule ≤ 6) }
    ensures { result ≡ constant_for rule }
{
    match rule {
        1 | 3 | 5 => FALSE,
        _ => TRUE,
    }
}

// Whether the rule applies to the first tree of the stretch, whose head is right for it, at the child i that begins at a place.
pub fn applies(part: &[u16], rule: usize, i: usize, j: usize, at: usize) -> bool
    requires le_rule { (1 ≤ rule) × (rule ≤ 8) }
    requires stretch { Stretch part.now }
    requires headed { Headed rule part.now }
    requires i_bound { (i < children (get_or part.now 0 0)) × (at ≡ child_at i part.now) }
    ensures { result ≡ is_some (rewrite rule i j (forest_in part.now)) }
{
    j == 0
        && match rule {
            1..=6 => part[at] == constant_for(rule),
            _ => common_nodes::children_of(usize::from(part[0])) == 1,
        }
}

// The step itself, where the rule applies. Rules 1 to 3 leave only the constant, and the node keeps its kind; 4 to 6 leave out
// child i, one number; 7 and 8 put the single child in the head's place.
pub fn turn(part: &mut [u16], rule: usize, i: usize, j: usize)
    requires le_rule { (1 ≤ rule) × (rule ≤ 8) }
    requires stretch { Stretch part.old }
    requires headed { Headed rule part.old }
    requires part_value { is_some (rewrite rule i j (forest_in part.old)) ≡ true }
    ensures { part.new ≡ rewritten_to rule i j part.old }
{
    match rule {
        1..=3 => {
            let head = part[0];
            let k = common_nodes::children_of(usize::from(head));
            let end = common_nodes::child_at(part, k);
            part[0] = head - head % KIND_FACTOR_16 + 1;
            part[1] = constant_for(rule);
            sheet_shifts::remove(part, 2, end - 2);
        }
        4..=6 => {
            let at = common_nodes::child_at(part, i);
            part[0] -= 1;
            sheet_shifts::remove(part, at, 1);
        }
        _ => sheet_shifts::remove(part, 0, 1),
    }
}
