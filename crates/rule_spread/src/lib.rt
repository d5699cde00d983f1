// Rules 9 and 10: a literal among the children decides its option in the others.
#![tactic(auto)]

ghost use Rattle.std.specs.Prelude.{◌≡◌, true, ◌≤◌, ◌<◌, length, get_or};
ghost use Rattle.std.proofs.Math.Seq.{slice};
ghost use Rattle.model.specs.Base.{any, is_some};
ghost use Rattle.model.specs.Code.{children};
ghost use Rattle.model.specs.Rules.{rewrite};
ghost use Rattle.theory_reading.specs.Spans.{child_at};
ghost use Rattle.theory_reading.specs.Stretches.{Stretch, forest_in};
ghost use Rattle.theory_rewriting.specs.Heads.{Headed, rewritten_to};
ghost use Rattle.rule_spread.specs.Assigning.{names, spreads_from, opposite, empty, assign, around};

use common_limits::{BARRED_KIND, KIND_FACTOR_16};
use rule_table::{FALSE, TRUE};

// The number is a literal of the option.
fn is_of(x: u16, option: usize) -> bool
    ensures { result ≡ names option x }
{
    let n = usize::from(x);
    common_nodes::is_literal(n) && option == common_nodes::value_of(n)
}

// Some number from one place up to another is a literal of the option.
fn occurs(part: &[u16], from: usize, to: usize, option: usize) -> bool
    requires { (from ≤ to) × (to ≤ length part.now) }
    ensures { result ≡ any (names option) (slice from to part.now) }
{
    part[from..to].iter().any(|x| is_of(*x, option))
}

// The number at a place is a literal whose option occurs before it, from the first child on, or after it, up to an end.
pub fn occurs_around(part: &[u16], at: usize, end: usize) -> bool
    requires { (1 ≤ at) × (at < end) × (end ≤ length part.now) }
    ensures { result ≡ spreads_from at end part.now }
{
    let x = usize::from(part[at]);
    let option = common_nodes::value_of(x);
    common_nodes::is_literal(x)
        && (occurs(part, 1, at, option) || occurs(part, at + 1, end, option))
}

// Whether the rule applies to the first tree of the stretch, whose head is right for it, at the child i that begins at a place:
// rules 9 and 10 have no use for j.
pub fn applies(part: &[u16], rule: usize, i: usize, j: usize, at: usize) -> bool
    requires le_rule { (9 ≤ rule) × (rule ≤ 10) }
    requires stretch { Stretch part.now }
    requires headed { Headed rule part.now }
    requires i_bound { (i < children (get_or part.now 0 0)) × (at ≡ child_at i part.now) }
    ensures { result ≡ is_some (rewrite rule i j (forest_in part.now)) }
{
    if j != 0 {
        return false;
    }
    let k = common_nodes::children_of(usize::from(part[0]));
    let end = common_nodes::child_at(part, k);
    occurs_around(part, at, end)
}

// The number of a literal's complement: the barred literals are of kind 2, the plain ones of kind 1.
fn opposite_of(x: u16) -> u16
    ensures { result ≡ opposite x }
{
    if x < BARRED_KIND {
        x + KIND_FACTOR_16
    } else {
        x - KIND_FACTOR_16
    }
}

// The number of an empty group: a disjunction is false, a conjunction true.
fn empty_group(disjunction: bool) -> u16
    ensures { result ≡ empty disjunction }
{
    if disjunction { FALSE } else { TRUE }
}

// The literal at a place is assigned in the numbers before it and after it: rule 9 puts an empty disjunction for the literal
// and an empty conjunction for its complement, rule 10 the other way round.
fn assign_around(part: &mut [u16], at: usize, end: usize, nine: bool)
    requires { (1 ≤ at) × (at < end) × (end ≤ length part.old) }
    ensures { part.new ≡ around (assign nine (get_or part.old at 0)) at end part.old }
{
    let same = part[at];
    let opposite = opposite_of(same);
    let neutral = empty_group(nine);
    let deciding = empty_group(!nine);
    sheet_shifts::assign(part, 1, at, same, opposite, neutral, deciding);
    sheet_shifts::assign(part, at + 1, end, same, opposite, neutral, deciding);
}

// The step itself, where the rule applies: no number moves.
pub fn turn(part: &mut [u16], rule: usize, i: usize, j: usize)
    requires le_rule { (9 ≤ rule) × (rule ≤ 10) }
    requires stretch { Stretch part.old }
    requires headed { Headed rule part.old }
    requires part_value { is_some (rewrite rule i j (forest_in part.old)) ≡ true }
    ensures { part.new ≡ rewritten_to rule i j part.old }
{
    let k = common_nodes::children_of(usize::from(part[0]));
    let at = common_nodes::child_at(part, i);
    let end = common_nodes::child_at(part, k);
    assign_around(part, at, end, rule == 9);
}
