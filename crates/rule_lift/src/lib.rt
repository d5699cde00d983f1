// Rules 11 to 13: a conjunction among the children of a conjunction or of the root gives up a literal, or all its children.
#![tactic(auto)]

ghost use Rattle.std.specs.Prelude.{◌≡◌, true, ◌+◌, ◌-◌, ◌≤◌, ◌<◌, length, get_or};
ghost use Rattle.std.proofs.Math.Seq.{slice};
ghost use Rattle.model.specs.Base.{all, is_some};
ghost use Rattle.model.specs.Limits.{sheet_room};
ghost use Rattle.model.specs.Code.{children};
ghost use Rattle.model.specs.Rules.{rewrite};
ghost use Rattle.theory_forms.specs.Scan.{is_literal};
ghost use Rattle.theory_reading.specs.Spans.{child_at};
ghost use Rattle.theory_reading.specs.Stretches.{Stretch, forest_in};
ghost use Rattle.theory_rewriting.specs.Heads.{Headed, rewritten_to};
ghost use Rattle.rule_lift.specs.Asked.{literal_child, others_literal};

// Every number from one place up to another is a literal.
fn are_literals(part: &[u16], from: usize, to: usize) -> bool
    requires { (from ≤ to) × (to ≤ length part.now) }
    ensures { result ≡ all is_literal (slice from to part.now) }
{
    part[from..to]
        .iter()
        .all(|x| common_nodes::is_literal(usize::from(*x)))
}

// Child j of the group that a stretch begins with is there, and a literal.
fn is_literal_child(part: &[u16], j: usize) -> bool
    requires in_bounds { (1 ≤ length part.now) × (length part.now ≤ sheet_room) }
    requires part_in_bounds { j < children (get_or part.now 0 0) → child_at j part.now < length part.now }
    ensures { result ≡ literal_child j part.now }
{
    j < common_nodes::children_of(usize::from(part[0]))
        && common_nodes::is_literal(usize::from(part[common_nodes::child_at(part, j)]))
}

// Rule 13's condition on the children other than child i, of k in all.
fn are_others_literals(part: &[u16], i: usize, k: usize) -> bool
    requires i_lt_k { (i < k) × (k < length part.now) × (length part.now ≤ sheet_room) }
    requires i_in_bounds { child_at (i + 1) part.now + (k - 1 - i) ≤ length part.now }
    ensures { result ≡ others_literal i k part.now }
{
    are_literals(part, 1, 1 + i)
        && {
            let next = common_nodes::child_at(part, i + 1);
            are_literals(part, next, next + (k - 1 - i))
        }
}

// Whether the rule applies to the first tree of the stretch, whose head is right for it, at the child i that begins at a place.
pub fn applies(part: &[u16], rule: usize, i: usize, j: usize, at: usize) -> bool
    requires le_rule { (11 ≤ rule) × (rule ≤ 13) }
    requires stretch { Stretch part.now }
    requires headed { Headed rule part.now }
    requires i_bound { (i < children (get_or part.now 0 0)) × (at ≡ child_at i part.now) }
    ensures { result ≡ is_some (rewrite rule i j (forest_in part.now)) }
{
    if common_nodes::kind_of(usize::from(part[at])) != 3 {
        return false;
    }
    match rule {
        11..=12 => is_literal_child(&part[at..], j),
        _ => {
            let k = common_nodes::children_of(usize::from(part[0]));
            j == 0 && are_others_literals(part, i, k)
        }
    }
}

// The step itself, where the rule applies: for 11 and 12 the conjunction's literal moves to before it, for 13 its head goes.
pub fn turn(part: &mut [u16], rule: usize, i: usize, j: usize)
    requires le_rule { (11 ≤ rule) × (rule ≤ 13) }
    requires stretch { Stretch part.old }
    requires headed { Headed rule part.old }
    requires part_value { is_some (rewrite rule i j (forest_in part.old)) ≡ true }
    ensures { part.new ≡ rewritten_to rule i j part.old }
{
    let at = common_nodes::child_at(part, i);
    match rule {
        11..=12 => {
            let from = at + common_nodes::child_at(&part[at..], j);
            part[0] += 1;
            part[at] -= 1;
            sheet_shifts::move_before(part, at, from);
        }
        _ => {
            let head = usize::from(part[0]);
            let more = common_nodes::children_of(usize::from(part[at]));
            part[0] = (head + more - 1) as u16;
            sheet_shifts::remove(part, at, 1);
        }
    }
}
