// The tables after a step: which places the step changes (its zone) and how those after them move; the table of bounds with its
// entries moved and those that may be too high back at 1; after a step of rule 9 or 10, those of the nodes that have got a constant
// among their children back at 1; and the table of sizes with its entries moved and those of the trees that lost nodes lower.
#![tactic(auto)]

ghost use Rattle.std.specs.Prelude.{◌≡◌, false, ℕ, ◌+◌, ◌-◌, ◌≤◌, ◌<◌, length, get_or, drop};
ghost use Rattle.model.specs.Limits.{sheet_room};
ghost use Rattle.model.specs.Forest.{size, kids};
ghost use Rattle.model.specs.Code.{decode};
ghost use Rattle.model.specs.Sheet.{used_in, nodes_in};
ghost use Rattle.theory_forms.specs.Sheets.{Formed};
ghost use Rattle.locality.specs.Zones.{child_place};
ghost use Rattle.search_sizes.specs.SizeTables.{Measured};
ghost use Rattle.search_place.specs.Redexes.{Applies};
ghost use Rattle.run_bounds_after.specs.Zoned.{Zoned};
ghost use Rattle.run_bounds_after.specs.Renewed.{Planned, close_up, Renewed};
ghost use Rattle.run_bounds_after.specs.SetBack.{ConstantFree, SetBack};
ghost use Rattle.run_bounds_after.specs.Resized.{fallen_size, Falls, Shrunk, Resized};

use common_limits::SHEET_ROOM;
use search_place::Redex;

// The places that a step may change: from one place on, up to `old` before the step and up to `new` after it.
#[derive(Clone, Copy)]
pub struct Zone {
    pub from: usize,
    pub old: usize,
    pub new: usize,
}

impl Zone {
    // The zone of a step that takes one node away.
    fn node_gone(at: usize) -> Zone
        requires { at < sheet_room }
        ensures { (result.from ≡ at)
            × (result.old ≡ at + 1)
            × (result.new ≡ at) }
    {
        Zone {
            from: at,
            old: at + 1,
            new: at,
        }
    }

    // The zone of a step that moves no node.
    fn unmoved(from: usize, to: usize) -> Zone
        ensures { (result.from ≡ from)
            × (result.old ≡ to)
            × (result.new ≡ to) }
    {
        Zone {
            from,
            old: to,
            new: to,
        }
    }
}

// What a step will change: its zone, its own place, and the two nearest places that hold it.
#[derive(Clone, Copy)]
pub struct Plan {
    pub zone: Zone,
    pub place: usize,
    pub inner: usize,
    pub outer: usize,
}

// The place of child i of the node at a place.
fn child_place(sheet: &[u16], place: usize, i: usize) -> usize
    requires formed { Formed sheet.now }
    requires i_bound { i < size (kids (decode (drop place (nodes_in sheet.now)))) }
    ensures { (result ≡ child_place place i (nodes_in sheet.now))
        × (result < sheet_room) }
{
    let from = 2 + place;
    place + common_nodes::child_at(&sheet[from..], i)
}

// The zone of rules 11 and 12: from child i on, up to the literal that is lifted.
fn lifted_zone(sheet: &[u16], redex: Redex) -> Zone
    requires le_rule { (11 ≤ redex.rule) × (redex.rule ≤ 12) }
    requires formed { Formed sheet.now }
    requires applies { Applies redex sheet.now }
    ensures { Zoned redex (nodes_in sheet.now) result }
{
    let at = child_place(sheet, redex.place, redex.i);
    let after = child_place(sheet, at, redex.j) + 1;
    Zone::unmoved(at, after)
}

// The zone of a step that applies. Rule 14 makes a tree anew: from the place on all is left open. Rule 17 changes a head alone: its zone
// is empty.
pub fn zone_of(sheet: &[u16], sizes: &[u16], redex: Redex) -> Zone
    requires measured { Measured sheet.now sizes.now }
    requires applies { Applies redex sheet.now }
    ensures { Zoned redex (nodes_in sheet.now) result }
{
    let rule = redex.rule;
    let place = redex.place;
    let end = place + usize::from(sizes[place]);
    match rule {
        1..=3 => Zone {
            from: place,
            old: end,
            new: place + 2,
        },
        4..=6 | 13 | 15 => Zone::node_gone(child_place(sheet, place, redex.i)),
        7..=8 => Zone::node_gone(place),
        9..=10 => Zone::unmoved(place, end),
        11..=12 => lifted_zone(sheet, redex),
        16 => Zone {
            from: place,
            old: end,
            new: place + 1,
        },
        17 => Zone::unmoved(place + 1, place + 1),
        _ => Zone::unmoved(place, SHEET_ROOM),
    }
}

// The entries from one place up to another become 1.
fn put_ones(low: &mut [u16], from: usize, to: usize)
    requires { (from ≤ to)
        × (to ≤ length low.old)
        × (to ≤ sheet_room) }
    ensures by_index { (q : ℕ) → from ≤ q → q < to → get_or low.new q 0 ≡ 1 }
    ensures by_index_2 { ((q : ℕ) → q < from → get_or low.new q 0 ≡ get_or low.old q 0)
        × ((q : ℕ) → to ≤ q → get_or low.new q 0 ≡ get_or low.old q 0) }
{
    low[from..to].fill(1);
}

// What stood from `old` on stands from `new` on; where the two are one place nothing moves.
fn close_up(low: &mut [u16], new: usize, old: usize)
    requires { (new ≤ old) × (old ≤ length low.old) }
    ensures { low.new ≡ close_up new old low.old }
{
    if new < old {
        sheet_shifts::remove(low, new, old - new);
    }
}

// The table after a step: its entries move with their nodes, and those of the zone and of the three places are 1.
pub fn renew(low: &mut [u16], plan: Plan)
    requires low_len { length low.old ≡ sheet_room }
    requires planned { Planned plan }
    ensures { Renewed plan low.old low.new }
{
    let Plan {
        zone,
        place,
        inner,
        outer,
    } = plan;
    close_up(low, zone.new, zone.old);
    put_ones(low, zone.from, zone.new);
    low[place] = 1;
    low[inner] = 1;
    low[outer] = 1;
}

// The size n of the tree at q after a step at a place that takes nodes away: less by so many where the tree reaches past the place.
fn fallen(q: u16, n: u16, place: u16, by: u16) -> u16
    requires { (q + n ≤ sheet_room) × (place < q + n → by ≤ n) }
    ensures { result ≡ fallen_size place by q n }
{
    if place < q + n { n - by } else { n }
}

// The sizes before `to`, fallen so. The loop has no way out and its numbers are narrow, so that the compiler does eight at a time.
fn shrink(sizes: &mut [u16], to: usize, place: u16, by: u16)
    requires to_in_bounds { (to ≤ length sizes.old) × (to ≤ sheet_room) }
    requires falls { Falls to place by sizes.old }
    ensures { Shrunk to place by sizes.old sizes.new }
{
    for q in 0..to {
        sizes[q] = fallen(q as u16, sizes[q], place, by);
    }
}

// The sizes after a step at a place that takes nodes away: what stood from `old` on stands from `new` on, ones follow, since zeros stand
// there, and of the sizes before `to` those of the trees that reach past the place fall.
pub fn resize_by(sizes: &mut [u16], to: usize, place: usize, new: usize, old: usize)
    requires sizes_len { length sizes.old ≡ sheet_room }
    requires to_le { (to ≤ new)
        × (new ≤ old)
        × (old ≤ sheet_room)
        × (place < sheet_room) }
    requires falls { Falls to place (old - new) sizes.old }
    ensures { Resized to place new old sizes.old sizes.new }
{
    let back = old - new;
    close_up(sizes, new, old);
    put_ones(sizes, SHEET_ROOM - back, SHEET_ROOM);
    shrink(sizes, to, place as u16, back as u16);
}

// The node at a place has a constant among its children. (A child begins where the one before it ends: the size that is read there says.)
fn has_constant(sheet: &[u16], sizes: &[u16], place: usize) -> bool
    requires measured { Measured sheet.now sizes.now }
    requires place_bound { place < used_in sheet.now }
    ensures { result ≡ false → ConstantFree place (nodes_in sheet.now) }
{
    let k = common_nodes::arity_of(usize::from(sheet[2 + place]));
    let mut at = place + 1;
    for _ in 0..k {
        let x = sheet[2 + at];
        if x == rule_table::TRUE || x == rule_table::FALSE {
            return true;
        }
        at += usize::from(sizes[at]);
    }
    false
}

// Whether the bound of a place may be too high now: its node has a constant among its children. Most places are literals, which have no
// children, and are passed over at once.
fn may_wake(sheet: &[u16], sizes: &[u16], place: usize) -> bool
    requires measured { Measured sheet.now sizes.now }
    requires place_bound { place < used_in sheet.now }
    ensures { result ≡ false → ConstantFree place (nodes_in sheet.now) }
{
    !common_nodes::is_literal(usize::from(sheet[2 + place])) && has_constant(sheet, sizes, place)
}

// The bounds of the places from one up to another that have a constant among their children go back to 1.
pub fn set_back(sheet: &[u16], sizes: &[u16], low: &mut [u16], from: usize, to: usize)
    requires measured { Measured sheet.now sizes.now }
    requires low_len { length low.old ≡ sheet_room }
    requires from_le_to { (from ≤ to) × (to ≤ used_in sheet.now) }
    ensures { SetBack from to (nodes_in sheet.now) low.old low.new }
{
    for place in from..to {
        if may_wake(sheet, sizes, place) {
            low[place] = 1;
        }
    }
}
