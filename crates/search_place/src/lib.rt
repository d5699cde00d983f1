// The search at one place: the least child and inner child at which a rule applies.
#![tactic(auto)]

ghost use Rattle.std.specs.Prelude.{◌≡◌, ◌⊎◌, ℕ, ◌≤◌, ◌<◌, length, get_or, drop};
ghost use Rattle.common_lists.specs.Given.{given};
ghost use Rattle.model.specs.Limits.{last_rule};
ghost use Rattle.model.specs.Code.{decode, children};
ghost use Rattle.model.specs.Strategy.{least_j, least_i};
ghost use Rattle.model.specs.Sheet.{used_in, nodes_in};
ghost use Rattle.theory_reading.specs.Spans.{child_at};
ghost use Rattle.theory_reading.specs.Stretches.{Stretch, forest_in};
ghost use Rattle.theory_rewriting.specs.Heads.{Headed};
ghost use Rattle.search_sizes.specs.SizeTables.{SizesOf, Measured};
ghost use Rattle.search_sizes.specs.FirstApplying.{FirstChild};
ghost use Rattle.search_place.specs.Redexes.{spot_of};
ghost use Rattle.search_place.specs.Sought.{Sought};

// Where a rule applies to a node: the child and the inner child.
#[derive(Clone, Copy)]
pub struct Spot {
    pub i: usize,
    pub j: usize,
}

// A step: rule, place, child and inner child.
#[derive(Clone, Copy)]
pub struct Redex {
    pub rule: usize,
    pub place: usize,
    pub i: usize,
    pub j: usize,
}

// The least inner child for rules 11 and 12: the first literal of the conjunction that is child i.
fn least_lifted(part: &[u16], sizes: &[u16], rule: usize, i: usize, at: usize) -> Option<Spot>
    requires le_rule { (11 ≤ rule) × (rule ≤ 12) }
    requires stretch { Stretch part.now }
    requires headed { Headed rule part.now }
    requires i_bound { (i < children (get_or part.now 0 0))
        × (at ≡ child_at i part.now) }
    requires sizes_of { SizesOf part.now sizes.now }
    ensures { (p : ℕ) → spot_of rule p result ≡ least_j rule p i (forest_in part.now) }
{
    let head = usize::from(part[at]);
    if common_nodes::kind_of(head) != 3 {
        return None;
    }
    let mut from = at + 1;
    for j in 0..common_nodes::children_of(head) {
        if common_nodes::is_literal(usize::from(part[from])) {
            return Some(Spot { i, j });
        }
        from += usize::from(sizes[from]);
    }
    None
}

// The least inner child for rule 13, which has no use for any but 0. Before its child i only literals may stand, a number each.
fn least_merged(part: &[u16], i: usize, at: usize) -> Option<Spot>
    requires stretch { Stretch part.now }
    requires headed { Headed 13 part.now }
    requires i_bound { (i < children (get_or part.now 0 0))
        × (at ≡ child_at i part.now) }
    ensures { (p : ℕ) → spot_of 13 p result ≡ least_j 13 p i (forest_in part.now) }
{
    if at == 1 + i && rule_lift::applies(part, 13, i, 0, at) {
        Some(Spot { i, j: 0 })
    } else {
        None
    }
}

// The least inner child for rule 14, before whose child i too only literals may stand.
fn least_factored(part: &[u16], sizes: &[u16], i: usize, at: usize) -> Option<Spot>
    requires stretch { Stretch part.now }
    requires headed { Headed 14 part.now }
    requires i_bound { (i < children (get_or part.now 0 0))
        × (at ≡ child_at i part.now) }
    requires sizes_of { SizesOf part.now sizes.now }
    ensures { (p : ℕ) → spot_of 14 p result ≡ least_j 14 p i (forest_in part.now) }
{
    if at != 1 + i {
        return None;
    }
    let j = search_common::first_common(part, sizes, i)?;
    Some(Spot { i, j })
}

// The least inner child for child i and a rule that looks into it.
fn least_inner(part: &[u16], sizes: &[u16], rule: usize, i: usize, at: usize) -> Option<Spot>
    requires le_rule { (11 ≤ rule) × (rule ≤ 14) }
    requires stretch { Stretch part.now }
    requires headed { Headed rule part.now }
    requires i_bound { (i < children (get_or part.now 0 0))
        × (at ≡ child_at i part.now) }
    requires sizes_of { SizesOf part.now sizes.now }
    ensures { (p : ℕ) → spot_of rule p result ≡ least_j rule p i (forest_in part.now) }
{
    match rule {
        11..=12 => least_lifted(part, sizes, rule, i, at),
        13 => least_merged(part, i, at),
        _ => least_factored(part, sizes, i, at),
    }
}

// The least child and inner child for such a rule.
fn least_inside(part: &[u16], sizes: &[u16], rule: usize) -> Option<Spot>
    requires le_rule { (11 ≤ rule) × (rule ≤ 14) }
    requires stretch { Stretch part.now }
    requires headed { Headed rule part.now }
    requires sizes_of { SizesOf part.now sizes.now }
    ensures { (p : ℕ) → spot_of rule p result ≡ least_i rule p (forest_in part.now) }
{
    let mut at = 1;
    for i in 0..common_nodes::children_of(usize::from(part[0])) {
        if let Some(spot) = least_inner(part, sizes, rule, i, at) {
            return Some(spot);
        }
        at += usize::from(sizes[at]);
    }
    None
}

// The first child that is one of the constants which a rule looks for.
fn first_constant(part: &[u16], sizes: &[u16], rule: usize, one: u16, other: u16) -> Option<usize>
    requires stretch { Stretch part.now }
    requires headed { Headed rule part.now }
    requires sizes_of { SizesOf part.now sizes.now }
    requires sought { Sought rule one other part.now }
    ensures { FirstChild rule (given result) part.now }
{
    let mut at = 1;
    for i in 0..common_nodes::children_of(usize::from(part[0])) {
        let x = part[at];
        if x == one || x == other {
            return Some(i);
        }
        at += usize::from(sizes[at]);
    }
    None
}

// The first child for rules 7 and 8, which apply to a single child.
fn only_child(part: &[u16], rule: usize) -> Option<usize>
    requires le_rule { (7 ≤ rule) × (rule ≤ 8) }
    requires stretch { Stretch part.now }
    requires headed { Headed rule part.now }
    ensures { FirstChild rule (given result) part.now }
{
    (common_nodes::children_of(usize::from(part[0])) == 1).then_some(0)
}

// The first child with which a rule of 1 to 10 or 15 applies, which looks at its children and into none of them.
fn first_beside(part: &[u16], sizes: &[u16], rule: usize) -> Option<usize>
    requires le_rule { (1 ≤ rule) × ((rule ≤ 10) ⊎ (rule ≡ 15)) }
    requires stretch { Stretch part.now }
    requires headed { Headed rule part.now }
    requires sizes_of { SizesOf part.now sizes.now }
    ensures { FirstChild rule (given result) part.now }
{
    match rule {
        1..=6 => {
            let constant = rule_simplify::constant_for(rule);
            first_constant(part, sizes, rule, constant, constant)
        }
        7..=8 => only_child(part, rule),
        15 => first_constant(part, sizes, rule, rule_least::FALSE, rule_least::TRUE),
        _ => search_recurring::first_recurring(part, sizes, rule),
    }
}

// Rules 16 and 17 are about the node alone, and have use for no child but 0.
fn least_ended(part: &[u16], rule: usize) -> Option<Spot>
    requires le_rule { (16 ≤ rule) × (rule ≤ 17) }
    requires stretch { Stretch part.now }
    requires headed { Headed rule part.now }
    ensures { (p : ℕ) → spot_of rule p result ≡ least_i rule p (forest_in part.now) }
{
    rule_least::ends(part, rule, 0, 0).then_some(Spot { i: 0, j: 0 })
}

// The least child and inner child for a rule at the first tree of a stretch.
pub fn least_child(part: &[u16], sizes: &[u16], rule: usize) -> Option<Spot>
    requires le_rule { (1 ≤ rule)
        × (rule ≤ last_rule)
        × (1 ≤ length part.now) }
    requires stretch { Stretch part.now }
    requires sizes_of { SizesOf part.now sizes.now }
    ensures { (p : ℕ) → spot_of rule p result ≡ least_i rule p (forest_in part.now) }
{
    if !rule_table::is_headed(part, rule) {
        return None;
    }
    match rule {
        11..=14 => least_inside(part, sizes, rule),
        16..=17 => least_ended(part, rule),
        _ => {
            let i = first_beside(part, sizes, rule)?;
            Some(Spot { i, j: 0 })
        }
    }
}

// The same at a place of a sheet.
pub fn least_at(sheet: &[u16], sizes: &[u16], rule: usize, place: usize) -> Option<Spot>
    requires le_rule { (1 ≤ rule) × (rule ≤ last_rule) }
    requires measured { Measured sheet.now sizes.now }
    requires place_bound { place < used_in sheet.now }
    ensures { spot_of rule place result ≡ least_i rule place (decode (drop place (nodes_in sheet.now))) }
{
    let from = 2 + place;
    least_child(&sheet[from..], &sizes[place..], rule)
}
