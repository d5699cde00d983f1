// Rules 15 to 17, for nodes of kind 6: a constant among the members; how many are asked for, where that decides the node or makes it
// any-of or all-of.
#![tactic(auto)]

ghost use Rattle.std.specs.Prelude.{◌≡◌, true, ◌≤◌, ◌<◌, get_or};
ghost use Rattle.model.specs.Base.{is_some};
ghost use Rattle.model.specs.Code.{children};
ghost use Rattle.model.specs.Rules.{rewrite};
ghost use Rattle.theory_reading.specs.Spans.{child_at};
ghost use Rattle.theory_reading.specs.Stretches.{Stretch, forest_in};
ghost use Rattle.theory_rewriting.specs.Heads.{Headed, rewritten_to};
ghost use Rattle.rule_least.specs.LeastHeads.{is_constant, without_member, is_ended, ended_head};

use common_limits::LEAST_FACTOR;
pub use rule_table::{FALSE, TRUE};

// The number is one of the two.
fn is_constant(x: u16) -> bool
    ensures { result ≡ is_constant x }
{
    x == FALSE || x == TRUE
}

// The head after a member has gone: where it was true one fewer is asked for, if any was.
fn without_member(head: usize, member: u16) -> u16
    requires { (24640 ≤ head) × (head < 28672) }
    ensures { result ≡ without_member head member }
{
    if member == TRUE && 0 < head % LEAST_FACTOR {
        (head - LEAST_FACTOR - 1) as u16
    } else {
        (head - LEAST_FACTOR) as u16
    }
}

// Whether rule 15 applies to the first tree of the stretch, whose head is right for it, at the member i that stands at a place.
pub fn drops(part: &[u16], i: usize, j: usize, at: usize) -> bool
    requires stretch { Stretch part.now }
    requires headed { Headed 15 part.now }
    requires i_bound { (i < children (get_or part.now 0 0)) × (at ≡ child_at i part.now) }
    ensures { result ≡ is_some (rewrite 15 i j (forest_in part.now)) }
{
    j == 0 && is_constant(part[at])
}

// The step itself, where the rule applies: member i, one number, goes.
pub fn drop_member(part: &mut [u16], i: usize, j: usize)
    requires stretch { Stretch part.old }
    requires headed { Headed 15 part.old }
    requires part_value { is_some (rewrite 15 i j (forest_in part.old)) ≡ true }
    ensures { part.new ≡ rewritten_to 15 i j part.old }
{
    let at = common_nodes::child_at(part, i);
    part[0] = without_member(usize::from(part[0]), part[at]);
    sheet_shifts::remove(part, at, 1);
}

// How many are asked for decides the node (rule 16), or makes it any-of or all-of (rule 17).
fn is_ended(head: usize, rule: usize) -> bool
    ensures { result ≡ is_ended head rule }
{
    let asked = head % LEAST_FACTOR;
    let members = common_nodes::children_of(head);
    if rule == 16 {
        asked == 0 || members < asked
    } else {
        asked == 1 || asked == members
    }
}

// The head that takes its place: none or too many asked for leave a constant, one is any-of, and all are all-of.
fn ended_head(head: usize, rule: usize) -> u16
    ensures { result ≡ ended_head head rule }
{
    let asked = head % LEAST_FACTOR;
    let members = common_nodes::children_of(head);
    if rule == 16 {
        if asked == 0 { TRUE } else { FALSE }
    } else if asked == 1 {
        FALSE + members as u16
    } else {
        TRUE + members as u16
    }
}

// Whether rule 16 or 17 applies to the first tree of the stretch, whose head is right for it.
pub fn ends(part: &[u16], rule: usize, i: usize, j: usize) -> bool
    requires le_rule { (16 ≤ rule) × (rule ≤ 17) }
    requires stretch { Stretch part.now }
    requires headed { Headed rule part.now }
    ensures { result ≡ is_some (rewrite rule i j (forest_in part.now)) }
{
    i == 0 && j == 0 && is_ended(usize::from(part[0]), rule)
}

// The step itself, where the rule applies: 16 leaves a constant alone, and 17 writes another head before the members.
pub fn end(part: &mut [u16], rule: usize, i: usize, j: usize)
    requires le_rule { (16 ≤ rule) × (rule ≤ 17) }
    requires stretch { Stretch part.old }
    requires headed { Headed rule part.old }
    requires part_value { is_some (rewrite rule i j (forest_in part.old)) ≡ true }
    ensures { part.new ≡ rewritten_to rule i j part.old }
{
    let head = usize::from(part[0]);
    let members = common_nodes::children_of(head);
    let end = common_nodes::child_at(part, members);
    part[0] = ended_head(head, rule);
    if rule == 16 {
        sheet_shifts::remove(part, 1, end - 1);
    }
}
