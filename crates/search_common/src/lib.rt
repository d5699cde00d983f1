// Rule 14: the first literal of the first conjunction that all conjunctions share.
#![tactic(auto)]

ghost use Rattle.std.specs.Prelude.{◌≡◌, ◌+◌, ◌≤◌, ◌<◌, length, get_or, drop};
ghost use Rattle.common_lists.specs.Given.{given};
ghost use Rattle.model.specs.Limits.{sheet_room};
ghost use Rattle.model.specs.Code.{children};
ghost use Rattle.theory_reading.specs.Spans.{child_at};
ghost use Rattle.theory_reading.specs.Stretches.{Stretch};
ghost use Rattle.theory_rewriting.specs.Heads.{Headed};
ghost use Rattle.search_sizes.specs.SizeTables.{SizesOf};
ghost use Rattle.rule_factor.specs.Walks.{group_here};
ghost use Rattle.search_sizes.specs.FirstApplying.{FirstInner};
ghost use Rattle.search_common.specs.Held.{literal_numbers, Noted, Carried, Filter, Barred};

use common_limits::KIND_FACTOR;

// The literals are the numbers of two kinds, from kind 1 on.
const LITERAL_NUMBERS: usize = 2 * KIND_FACTOR;

// A child of a conjunction is noted: a literal that each of the conjunctions before holds is held by one more.
fn note(held: &mut [u16], x: usize, groups: u16)
    requires { (length held.old ≡ literal_numbers)
        × (groups ≤ sheet_room) }
    ensures { Noted x groups held.old held.new }
{
    if common_nodes::is_literal(x) {
        let k = x - KIND_FACTOR;
        if held[k] == groups {
            held[k] = groups + 1;
        }
    }
}

// The tree at a place, after so many conjunctions: the children of a conjunction are noted. The conjunctions with it.
fn hold(part: &[u16], sizes: &[u16], at: usize, groups: u16, held: &mut [u16]) -> u16
    requires at_in_bounds { (at < length part.now)
        × (length part.now ≤ sheet_room)
        × (groups ≤ sheet_room) }
    requires sizes_of { SizesOf part.now sizes.now }
    requires held_len { length held.old ≡ literal_numbers }
    ensures value { result ≡ groups + group_here (get_or part.now at 0) }
    ensures carried { Carried groups result (drop at part.now) held.old held.new }
{
    let head = usize::from(part[at]);
    if common_nodes::is_literal(head) {
        return groups;
    }
    let mut from = at + 1;
    for _ in 0..common_nodes::children_of(head) {
        if from == part.len() {
            break;
        }
        note(held, usize::from(part[from]), groups);
        from += usize::from(sizes[from]);
    }
    groups + 1
}

// The children of the first tree, one after the other; how many conjunctions there are, or 0 where some child is neither a
// literal nor a conjunction, so that no literal is shared.
fn hold_all(part: &[u16], sizes: &[u16], held: &mut [u16]) -> u16
    requires in_bounds { (1 ≤ length part.now) × (length part.now ≤ sheet_room) }
    requires sizes_of { SizesOf part.now sizes.now }
    requires held_len { length held.old ≡ literal_numbers }
    ensures { Filter result part.now held.new }
{
    let mut groups = 0;
    let mut at = 1;
    for _ in 0..common_nodes::children_of(usize::from(part[0])) {
        if at == part.len() {
            break;
        }
        if 3 < common_nodes::kind_of(usize::from(part[at])) {
            return 0;
        }
        groups = hold(part, sizes, at, groups, held);
        at += usize::from(sizes[at]);
    }
    groups
}

// By the table, all conjunctions may share a number.
fn may_share(held: &[u16], x: usize, groups: u16) -> bool
    requires { length held.now ≡ literal_numbers }
    ensures { Barred result x groups held.now }
{
    common_nodes::is_literal(x) && groups <= held[x - KIND_FACTOR]
}

// The first literal with which the rule applies, where only those are tried that the table leaves.
fn first_sifted(part: &[u16], sizes: &[u16], i: usize, held: &[u16], groups: u16) -> Option<usize>
    requires stretch { Stretch part.now }
    requires headed { Headed 14 part.now }
    requires i_bound { (i < children (get_or part.now 0 0))
        × (1 + i ≡ child_at i part.now) }
    requires sizes_of { SizesOf part.now sizes.now }
    requires held_len { (length held.now ≡ literal_numbers)
        × Filter groups part.now held.now }
    ensures { FirstInner 14 i (given result) part.now }
{
    let at = 1 + i;
    let head = usize::from(part[at]);
    if groups < 2 || common_nodes::kind_of(head) != 3 {
        return None;
    }
    let mut from = at + 1;
    for j in 0..common_nodes::children_of(head) {
        let x = usize::from(part[from]);
        if may_share(held, x, groups) && rule_factor::applies(part, i, j, at) {
            return Some(j);
        }
        from += usize::from(sizes[from]);
    }
    None
}

// The same with a table of its own: for each literal, how many conjunctions from the first on hold it.
fn first_held(part: &[u16], sizes: &[u16], i: usize) -> Option<usize>
    requires stretch { Stretch part.now }
    requires headed { Headed 14 part.now }
    requires i_bound { (i < children (get_or part.now 0 0))
        × (1 + i ≡ child_at i part.now) }
    requires sizes_of { SizesOf part.now sizes.now }
    ensures { FirstInner 14 i (given result) part.now }
{
    let mut held = [0u16; LITERAL_NUMBERS];
    let groups = hold_all(part, sizes, &mut held);
    first_sifted(part, sizes, i, &held, groups)
}

// The first literal with which the rule applies, where each is tried.
fn first_tried(part: &[u16], i: usize) -> Option<usize>
    requires stretch { Stretch part.now }
    requires headed { Headed 14 part.now }
    requires i_bound { (i < children (get_or part.now 0 0))
        × (1 + i ≡ child_at i part.now) }
    ensures { FirstInner 14 i (given result) part.now }
{
    for j in 0..common_nodes::arity_of(usize::from(part[1 + i])) {
        if rule_factor::applies(part, i, j, 1 + i) {
            return Some(j);
        }
    }
    None
}

// The first inner child of child i with which the rule applies, where each child before child i is one number. A table costs more than it
// saves where the tree is small, or where child i has no children.
pub fn first_common(part: &[u16], sizes: &[u16], i: usize) -> Option<usize>
    requires stretch { Stretch part.now }
    requires headed { Headed 14 part.now }
    requires i_bound { (i < children (get_or part.now 0 0))
        × (1 + i ≡ child_at i part.now) }
    requires sizes_of { SizesOf part.now sizes.now }
    ensures { FirstInner 14 i (given result) part.now }
{
    if sizes[0] < 64 || sizes[1 + i] < 2 {
        first_tried(part, i)
    } else {
        first_held(part, sizes, i)
    }
}
