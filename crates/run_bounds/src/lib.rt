// The strategy's search by bounds: beside each place a number below which no rule applies there, so that a place is tried again only
// where its bound was lowered.
#![tactic(auto)]

ghost use Rattle.std.specs.Prelude.{◌≡◌, false, ℕ, ◌+◌, ◌≤◌, ◌<◌, length, get_or, drop};
ghost use Rattle.std.proofs.Math.Option.{none};
ghost use Rattle.common_lists.specs.Given.{given};
ghost use Rattle.model.specs.Limits.{sheet_room, last_rule, no_rule};
ghost use Rattle.model.specs.Code.{decode};
ghost use Rattle.model.specs.Strategy.{least_i, least_place, next};
ghost use Rattle.model.specs.Sheet.{used_in, nodes_in};
ghost use Rattle.rule_table.specs.Columns.{kind_for};
ghost use Rattle.search_sizes.specs.Ranges.{block};
ghost use Rattle.search_sizes.specs.SizeTables.{Measured};
ghost use Rattle.search_place.specs.Redexes.{spot_of, next_of};
ghost use Rattle.run_bounds.specs.BoundTables.{High, FirstWaiting, Tabled, Raised, ComeTo};
ghost use Rattle.run_bounds.specs.Floors.{floor_of, place_of};

use common_limits::NO_RULE;
use search_place::{Redex, Spot};
use search_sizes::BLOCK;

// The bound of a place where no rule applies.
const PAST_ALL: u16 = NO_RULE as u16;

// The next rule after one that is for a kind of node; the number past all rules where there is none.
fn next_for(kind: usize, rule: usize) -> usize
    requires { rule ≤ last_rule }
    ensures { (rule < result)
        × (result ≤ no_rule)
        × ((s : ℕ) → rule < s → s < result → kind_for s ≡ kind → ⊥) }
{
    for next in rule + 1..NO_RULE {
        if rule_table::kind_for(next) == kind {
            return next;
        }
    }
    NO_RULE
}

// Where the rule applies at a place whose bound has come to the rule; where the rule does not apply the bound rises to the next rule for
// such a node, and past all rules at a literal.
fn try_at(sheet: &[u16], sizes: &[u16], low: &mut [u16], rule: usize, place: usize) -> Option<Spot>
    requires le_rule { (1 ≤ rule) × (rule ≤ last_rule) }
    requires tabled { Tabled sheet.now sizes.now low.old }
    requires place_bound { place < used_in sheet.now }
    requires rule_bound { rule ≤ get_or low.old place 0 }
    ensures result_value { spot_of rule place result ≡ least_i rule place (decode (drop place (nodes_in sheet.now))) }
    ensures raised { Raised sheet.now sizes.now low.old low.new }
    ensures rule_bound_2 { spot_of rule place result ≡ none → rule < get_or low.new place 0 }
{
    if rule < usize::from(low[place]) {
        return None;
    }
    let from = 2 + place;
    let head = usize::from(sheet[from]);
    if common_nodes::is_literal(head) {
        low[place] = PAST_ALL;
        return None;
    }
    if let Some(spot) = search_place::least_at(sheet, sizes, rule, place) {
        return Some(spot);
    }
    low[place] = next_for(common_nodes::kind_of(head), rule) as u16;
    None
}

// Whether one of a block of bounds, from a place on, is not past a rule: where not, all are past it. The loop has no way out and its
// numbers are narrow, so that the compiler looks at eight at a time.
fn some_waiting(low: &[u16], rule: u16, from: usize) -> bool
    requires { (from + block ≤ length low.now) × (from + block ≤ sheet_room) }
    ensures { result ≡ false → High (rule + 1) from (from + block) low.now }
{
    let mut some = false;
    for k in 0..BLOCK {
        some |= low[from + k] <= rule;
    }
    some
}

// From one place on, and up to another, block by block over those in which all bounds are past a rule: the place after these blocks. A
// `while`, since each turn hops by a block.
fn past_blocks(low: &[u16], rule: u16, from: usize, to: usize) -> usize
    requires { (from ≤ to)
        × (to ≤ length low.now)
        × (to ≤ sheet_room) }
    ensures { (from ≤ result)
        × (result ≤ to)
        × High (rule + 1) from result low.now }
{
    let mut place = from;
    while place + BLOCK <= to && !some_waiting(low, rule, place) {
        place += BLOCK;
    }
    place
}

// The first place from one on, and before another, whose bound is not past a rule.
fn first_waiting(low: &[u16], rule: usize, from: usize, to: usize) -> Option<usize>
    requires from_le_to { (from ≤ to)
        × (to ≤ length low.now)
        × (to ≤ sheet_room) }
    requires rule_le_no_rule { rule ≤ no_rule }
    ensures { FirstWaiting (rule + 1) from to low.now (given result) }
{
    let narrow = rule as u16;
    for place in past_blocks(low, narrow, from, to)..to {
        if low[place] <= narrow {
            return Some(place);
        }
    }
    None
}

// The least place for a rule that all bounds have come to, from a start on before which all are past it.
fn least_place(
    sheet: &[u16],
    sizes: &[u16],
    low: &mut [u16],
    rule: usize,
    start: usize,
) -> Option<Redex>
    requires rule_le_last_rule { rule ≤ last_rule }
    requires come_to { ComeTo rule start sheet.now sizes.now low.old }
    ensures result_value { next_of result ≡ least_place rule (nodes_in sheet.now) }
    ensures come_to_2 { ComeTo (floor_of (rule + 1) result) (place_of result) sheet.now sizes.now low.new }
{
    let used = usize::from(sheet[1]);
    let mut from = start;
    while let Some(place) = first_waiting(low, rule, from, used) {
        if let Some(spot) = try_at(sheet, sizes, low, rule, place) {
            return Some(Redex {
                rule,
                place,
                i: spot.i,
                j: spot.j,
            });
        }
        from = place + 1;
    }
    None
}

// The strategy's step, where all bounds have come to a rule, and those before a cursor are past it.
pub fn next_redex(
    sheet: &[u16],
    sizes: &[u16],
    low: &mut [u16],
    floor: usize,
    cursor: usize,
) -> Option<Redex>
    requires { ComeTo floor cursor sheet.now sizes.now low.old }
    ensures result_value { next_of result ≡ next (nodes_in sheet.now) }
    ensures come_to { ComeTo (floor_of no_rule result) (place_of result) sheet.now sizes.now low.new }
{
    let mut start = cursor;
    for rule in floor..NO_RULE {
        if let Some(redex) = least_place(sheet, sizes, low, rule, start) {
            return Some(redex);
        }
        start = 0;
    }
    None
}

// The least rule from a start on, and below a limit, that applies at a place; the limit where none does. At a literal none does, and at
// any other node only those for its kind are tried.
fn least_rule(sheet: &[u16], sizes: &[u16], place: usize, start: usize, limit: usize) -> usize
    requires le_start { (1 ≤ start)
        × (start ≤ limit)
        × (limit ≤ no_rule) }
    requires measured { Measured sheet.now sizes.now }
    requires place_bound { place < used_in sheet.now }
    ensures { (start ≤ result)
        × (result ≤ limit)
        × ((s : ℕ) → start ≤ s → s < result → none ≡ least_i s place (decode (drop place (nodes_in sheet.now)))) }
{
    let from = 2 + place;
    let head = usize::from(sheet[from]);
    if common_nodes::is_literal(head) {
        return limit;
    }
    let kind = common_nodes::kind_of(head);
    for rule in start..limit {
        if rule_table::kind_for(rule) == kind
            && search_place::least_at(sheet, sizes, rule, place).is_some()
        {
            return rule;
        }
    }
    limit
}

// The bound of a place rises up to a limit, or to the least rule below it that applies there: the number it has come to.
fn raise(sheet: &[u16], sizes: &[u16], low: &mut [u16], place: usize, limit: usize) -> usize
    requires le_limit { (1 ≤ limit) × (limit ≤ no_rule) }
    requires tabled { Tabled sheet.now sizes.now low.old }
    requires place_bound { place < used_in sheet.now }
    requires bound { 1 ≤ get_or low.old place 0 }
    ensures lower_bound { (1 ≤ result)
        × (result ≤ limit)
        × (result ≤ get_or low.new place 0) }
    ensures raised { Raised sheet.now sizes.now low.old low.new }
{
    let start = usize::from(low[place]);
    if limit <= start {
        return limit;
    }
    let rule = least_rule(sheet, sizes, place, start, limit);
    low[place] = rule as u16;
    rule
}

// The same for the places from one up to another: the least number that one of them has come to.
pub fn raise_all(
    sheet: &[u16],
    sizes: &[u16],
    low: &mut [u16],
    from: usize,
    to: usize,
    limit: usize,
) -> usize
    requires le_limit { (1 ≤ limit) × (limit ≤ no_rule) }
    requires tabled { Tabled sheet.now sizes.now low.old }
    requires from_le_to { (from ≤ to) × (to ≤ used_in sheet.now) }
    requires high { High 1 from to low.old }
    ensures lower_bound { (1 ≤ result)
        × (result ≤ limit)
        × High result from to low.new }
    ensures raised { Raised sheet.now sizes.now low.old low.new }
{
    let mut floor = limit;
    let mut start = from;
    while let Some(place) = first_waiting(low, floor - 1, start, to) {
        floor = raise(sheet, sizes, low, place, floor);
        start = place + 1;
    }
    floor
}
