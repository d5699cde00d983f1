// Rule 14, what it makes: a conjunction of the literal that is shared and of the disjunction of what is left.
#![tactic(auto)]

ghost use Rattle.std.specs.Prelude.{◌≡◌, true, ◌+◌, ◌≤◌, ◌<◌, length, get_or, drop};
ghost use Rattle.model.specs.Base.{is_some};
ghost use Rattle.model.specs.Limits.{kind_factor, sheet_room};
ghost use Rattle.model.specs.Code.{kind, children};
ghost use Rattle.model.specs.Rules.{rewrite};
ghost use Rattle.theory_reading.specs.Stretches.{Stretch, forest_in};
ghost use Rattle.theory_rewriting.specs.Heads.{Headed, rewritten_to};
ghost use Rattle.rule_factor.specs.Walks.{among, all_share, shares_here};
ghost use Rattle.rule_regroup.specs.Regrouped.{Appended, factored, gathered, kept, less_unit, step_after, tree_after};

use common_limits::SHEET_ROOM;
use rule_table::{FALSE, TRUE};

// The number of a conjunction of two.
const BOTH: u16 = TRUE + 2;

// Numbers are written into a list from a place on; the place after them.
fn copy(out: &mut [u16], at: usize, from: &[u16]) -> usize
    requires { at + length from.now ≤ length out.old }
    ensures { Appended from.now at out.old out.new result }
{
    let end = at + from.len();
    out[at..end].copy_from_slice(from);
    end
}

// The conjunction without its first child that is the literal.
fn copy_group(out: &mut [u16], at: usize, part: &[u16], literal: u16) -> usize
    requires in_bounds { (1 ≤ length part.now) × (length part.now ≤ sheet_room) }
    requires part_value { kind (get_or part.now 0 0) ≡ 3 }
    requires part_value_2 { among literal (children (get_or part.now 0 0)) (drop 1 part.now) ≡ true }
    requires part_in_bounds { at + length (less_unit literal part.now) ≤ length out.old }
    ensures { Appended (less_unit literal part.now) at out.old out.new result }
{
    let m = common_nodes::children_of(usize::from(part[0]));
    let p = 1 + rule_factor::unit_place(&part[1..], m, literal).unwrap();
    let end = common_nodes::child_at(part, m);
    out[at] = part[0] - 1;
    let next = copy(out, at + 1, &part[1..p]);
    copy(out, next, &part[p + 1..end])
}

// What is kept of the first tree: of groups the group without the literal, and else the literal that it is.
fn copy_tree(out: &mut [u16], at: usize, part: &[u16], literal: u16, groups: bool) -> usize
    requires in_bounds { (1 ≤ length part.now) × (length part.now ≤ sheet_room) }
    requires part_value { shares_here literal part.now ≡ true }
    requires part_in_bounds { at + length (kept groups literal part.now) ≤ length out.old }
    ensures { Appended (kept groups literal part.now) at out.old out.new result }
{
    let x = part[0];
    if common_nodes::is_literal(usize::from(x)) {
        if groups {
            at
        } else {
            out[at] = x;
            at + 1
        }
    } else if groups {
        copy_group(out, at, part, literal)
    } else {
        at
    }
}

// The same of so many trees.
fn copy_trees(
    out: &mut [u16],
    at: usize,
    part: &[u16],
    trees: usize,
    literal: u16,
    groups: bool,
) -> usize
    requires part_len_bound { length part.now ≤ sheet_room }
    requires part_value { all_share literal trees part.now ≡ true }
    requires part_in_bounds { at + length (gathered groups literal trees part.now) ≤ length out.old }
    ensures { Appended (gathered groups literal trees part.now) at out.old out.new result }
{
    let mut to = at;
    let mut from = 0;
    for passed in 0..trees {
        if from == part.len() {
            return to;
        }
        to = copy_tree(out, to, &part[from..], literal, groups);
        from += common_nodes::span_of(&part[from..], 1);
    }
    to
}

// The new tree: the literals, then a conjunction of the literal and the disjunction of what is left of the groups. (Below 20480 no node
// is the root.)
fn build(out: &mut [u16], part: &[u16], trees: usize, literal: u16, groups: u16) -> usize
    requires in_bounds { (1 ≤ length part.now) × (length part.now ≤ sheet_room) }
    requires groups_lt_kind_factor { (groups < kind_factor) × (groups ≤ get_or part.now 0 0) × (get_or part.now 0 0 < 20480) }
    requires part_value { all_share literal trees (drop 1 part.now) ≡ true }
    requires part_in_bounds { length (factored literal trees groups part.now) ≤ length out.old }
    ensures { Appended (factored literal trees groups part.now) 0 out.old out.new result }
{
    out[0] = part[0] + 1 - groups;
    let to = copy_trees(out, 1, &part[1..], trees, literal, false);
    out[to] = BOTH;
    out[to + 1] = literal;
    out[to + 2] = FALSE + groups;
    copy_trees(out, to + 3, &part[1..], trees, literal, true)
}

// The tree that a stretch begins with, after the rule.
fn write_tree(out: &mut [u16], part: &[u16], i: usize, j: usize) -> usize
    requires stretch { Stretch part.now }
    requires headed { Headed 14 part.now }
    requires part_value { is_some (rewrite 14 i j (forest_in part.now)) ≡ true }
    requires part_in_bounds { length part.now ≤ length out.old }
    ensures { Appended (tree_after i j part.now) 0 out.old out.new result }
{
    let k = common_nodes::children_of(usize::from(part[0]));
    let at = common_nodes::child_at(part, i);
    let literal = rule_factor::unit_of(&part[at..], j).unwrap();
    let groups = rule_factor::sharing_groups(&part[1..], k, literal).unwrap();
    build(out, part, k, literal, groups)
}

// The same, and the trees that stand after it.
fn write_step(out: &mut [u16], part: &[u16], i: usize, j: usize) -> usize
    requires stretch { Stretch part.now }
    requires headed { Headed 14 part.now }
    requires part_value { is_some (rewrite 14 i j (forest_in part.now)) ≡ true }
    requires part_in_bounds { length part.now ≤ length out.old }
    ensures { Appended (step_after i j part.now) 0 out.old out.new result }
{
    let to = write_tree(out, part, i, j);
    let k = common_nodes::children_of(usize::from(part[0]));
    let end = common_nodes::child_at(part, k);
    let used = sheet_shifts::live_count(part);
    copy(out, to, &part[end..used])
}

// The step itself, where the rule applies: what the stretch becomes is written elsewhere first, and zeros follow it.
pub fn turn(part: &mut [u16], i: usize, j: usize)
    requires stretch { Stretch part.old }
    requires headed { Headed 14 part.old }
    requires part_value { is_some (rewrite 14 i j (forest_in part.old)) ≡ true }
    ensures { part.new ≡ rewritten_to 14 i j part.old }
{
    let mut out = [0u16; SHEET_ROOM];
    let total = write_step(&mut out, part, i, j);
    copy(part, 0, &out[..total]);
    sheet_shifts::clear_from(part, total);
}
