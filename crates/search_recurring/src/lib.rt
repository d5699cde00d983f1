// The first child that is a literal whose option occurs again in the tree, for rules 9 and 10.
#![tactic(auto)]

ghost use Rattle.std.specs.Prelude.{false, ◌≡◌, ◌≤◌, ◌<◌, length, replicate};
ghost use Rattle.std.proofs.Math.Option.{none};
ghost use Rattle.common_lists.specs.Given.{given};
ghost use Rattle.model.specs.Limits.{kind_factor, sheet_room};
ghost use Rattle.theory_reading.specs.Stretches.{Stretch};
ghost use Rattle.theory_rewriting.specs.Heads.{Headed};
ghost use Rattle.search_sizes.specs.FirstApplying.{FirstChild};
ghost use Rattle.search_sizes.specs.SizeTables.{SizesOf};
ghost use Rattle.rule_spread.specs.Assigning.{spreads_from};
ghost use Rattle.search_recurring.specs.Recurring.{EndsAt, FirstAgain, Tallied, TalliedIfAny};

use common_limits::KIND_FACTOR;

// How many literals of each option stand between the head and an end: none, one, or two for all more.
fn count(part: &[u16], end: usize, tally: &mut [u8])
    requires { (1 ≤ end)
        × (end ≤ length part.now)
        × (length part.now ≤ sheet_room)
        × (tally.old ≡ replicate kind_factor 0) }
    ensures { Tallied 1 end part.now tally.new }
{
    for q in (1..end).rev() {
        let x = usize::from(part[q]);
        if common_nodes::is_literal(x) {
            let option = common_nodes::value_of(x);
            if tally[option] < 2 {
                tally[option] += 1;
            }
        }
    }
}

// The number at a place is a literal whose option occurs again: by the tally where there is one, and else by a look around it.
fn recurs(part: &[u16], at: usize, end: usize, tally: &[u8]) -> bool
    requires le_at { (1 ≤ at)
        × (at < end)
        × (end ≤ length part.now)
        × (length part.now ≤ sheet_room) }
    requires tallied_if_any { TalliedIfAny end part.now tally.now }
    ensures { result ≡ spreads_from at end part.now }
{
    if tally.is_empty() {
        return rule_spread::occurs_around(part, at, end);
    }
    let x = usize::from(part[at]);
    common_nodes::is_literal(x) && tally[common_nodes::value_of(x)] == 2
}

// The first child for which that holds.
fn first_among(part: &[u16], sizes: &[u16], end: usize, tally: &[u8]) -> Option<usize>
    requires ends_at { EndsAt end part.now }
    requires sizes_of { SizesOf part.now sizes.now }
    requires tallied_if_any { TalliedIfAny end part.now tally.now }
    ensures { FirstAgain end (given result) part.now }
{
    let mut at = 1;
    for i in 0..common_nodes::children_of(usize::from(part[0])) {
        if recurs(part, at, end, tally) {
            return Some(i);
        }
        at += usize::from(sizes[at]);
    }
    None
}

// Whether one of the children of the first tree, which ends at a place, is a literal: where not, none recurs.
fn has_literal(part: &[u16], sizes: &[u16], end: usize) -> bool
    requires ends_at { EndsAt end part.now }
    requires sizes_of { SizesOf part.now sizes.now }
    ensures { result ≡ false → FirstAgain end none part.now }
{
    let mut at = 1;
    for _ in 0..common_nodes::children_of(usize::from(part[0])) {
        if common_nodes::is_literal(usize::from(part[at])) {
            return true;
        }
        at += usize::from(sizes[at]);
    }
    false
}

// The first child with which rule 9 or 10 applies to the first tree of a stretch, whose head is right for it. A look around each literal
// is short in a tree of few numbers; in one of many the literals are counted, once, by their options, but for a tree that has no literal
// among its children.
pub fn first_recurring(part: &[u16], sizes: &[u16], rule: usize) -> Option<usize>
    requires le_rule { (9 ≤ rule) × (rule ≤ 10) }
    requires stretch { Stretch part.now }
    requires headed { Headed rule part.now }
    requires sizes_of { SizesOf part.now sizes.now }
    ensures { FirstChild rule (given result) part.now }
{
    let end = usize::from(sizes[0]);
    if end < 24 {
        return first_among(part, sizes, end, &[]);
    }
    if !has_literal(part, sizes, end) {
        return None;
    }
    let mut tally = [0u8; KIND_FACTOR];
    count(part, end, &mut tally);
    first_among(part, sizes, end, &tally)
}
