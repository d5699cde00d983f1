// One step of a run by bounds: the sheet, the sizes of its trees and the bounds beside its places go on together.
#![tactic(auto)]

ghost use Rattle.std.specs.Prelude.{◌≡◌, ◌⊎◌, ◌≤◌, ◌<◌, length, drop};
ghost use Rattle.model.specs.Limits.{sheet_room};
ghost use Rattle.model.specs.Sheet.{used_in, nodes_in};
ghost use Rattle.search_sizes.specs.SizeTables.{SizesFrom, Measured};
ghost use Rattle.search_place.specs.Redexes.{Applies, stepped_by};
ghost use Rattle.run_bounds.specs.BoundTables.{ComeTo};
ghost use Rattle.run_bounds_after.specs.Renewed.{Planned};
ghost use Rattle.run_one_step.specs.Foreseen.{Foreseen};
ghost use Rattle.run_one_step.specs.Followed.{Followed};
ghost use Rattle.run_one_step.specs.SizesLeft.{SizesLeft};
ghost use Rattle.run_one_step.specs.MovedOn.{MovedOn};

use run_bounds_after::{Plan, Zone};
use search_place::Redex;

// The sizes after a step of a rule at a place. Rules 9 and 10 keep every size, rules 11, 12 and 17 those outside the zone; rule 14 keeps
// those past all nodes, old and new. After any other rule those behind the zone move with their nodes, those of the trees that hold the
// place fall, and those of the zone, two at most, are made anew.
fn resize(sheet: &[u16], sizes: &mut [u16], rule: usize, place: usize, zone: Zone, most: usize)
    requires { SizesLeft rule place most zone sheet.now sizes.old }
    ensures { SizesFrom 0 (drop 2 sheet.now) sizes.new }
{
    match rule {
        9..=10 => {}
        11..=12 | 17 => search_sizes::refill(&sheet[2..], sizes, zone.from, zone.new),
        14 => search_sizes::refill(&sheet[2..], sizes, 0, most),
        _ => {
            let to = zone.from.min(place + 1);
            run_bounds_after::resize_by(sizes, to, place, zone.new, zone.old);
            search_sizes::refill(&sheet[2..], sizes, zone.from, zone.new);
        }
    }
}

// What a step will change: its zone, and the two nearest places that hold its own.
fn look_ahead(sheet: &[u16], sizes: &[u16], redex: Redex) -> Plan
    requires measured { Measured sheet.now sizes.now }
    requires applies { Applies redex sheet.now }
    ensures { Foreseen redex (nodes_in sheet.now) result }
{
    let place = redex.place;
    let inner = search_sizes::holder(sizes, place, place);
    let outer = search_sizes::holder(sizes, inner, place);
    let zone = run_bounds_after::zone_of(sheet, sizes, redex);
    Plan {
        zone,
        place,
        inner,
        outer,
    }
}

// The bounds after a step, whose sheet and sizes are there: those of the zone go back to 1. Rules 9 and 10 move no node and make
// constants of literals, so that of their zone those go back alone whose node has a constant among its children.
fn follow(sheet: &[u16], sizes: &[u16], low: &mut [u16], rule: usize, plan: Plan)
    requires measured { Measured sheet.now sizes.now }
    requires low_len { length low.old ≡ sheet_room }
    requires planned { Planned plan }
    requires from_value { 9 ≤ rule → rule ≤ 10 →
        (plan.zone.from ≡ plan.place)
        × (plan.place < plan.zone.new)
        × (plan.zone.new ≤ used_in sheet.now) }
    ensures { Followed rule plan (nodes_in sheet.now) low.old low.new }
{
    match rule {
        9..=10 => {
            let Zone { old, new, .. } = plan.zone;
            let none = Zone {
                from: new,
                old,
                new,
            };
            run_bounds_after::renew(low, Plan { zone: none, ..plan });
            run_bounds_after::set_back(sheet, sizes, low, plan.place + 1, new);
        }
        _ => run_bounds_after::renew(low, plan),
    }
}

// The places whose bounds a step has set back lie from one place up to another.
#[derive(Clone, Copy)]
struct Reach {
    from: usize,
    to: usize,
}

// The step on the sheet and the two tables.
fn move_on(sheet: &mut [u16], sizes: &mut [u16], low: &mut [u16], redex: Redex) -> Reach
    requires come_to { ComeTo redex.rule redex.place sheet.old sizes.old low.old }
    requires applies { Applies redex sheet.old }
    ensures sheet_after { sheet.new ≡ stepped_by redex sheet.old }
    ensures moved_on { MovedOn redex.rule result sheet.new sizes.new low.new }
{
    let rule = redex.rule;
    let place = redex.place;
    let plan = look_ahead(sheet, sizes, redex);
    let zone = plan.zone;
    let before = usize::from(sheet[1]);
    step::apply_by(sheet, rule, place, redex.i, redex.j, zone.old - zone.new);
    let most = before.max(usize::from(sheet[1]));
    resize(sheet, sizes, rule, place, zone, most);
    follow(sheet, sizes, low, rule, plan);
    Reach {
        from: plan.outer,
        to: zone.new.max(place + 1),
    }
}

// Where the search for the next step begins: all bounds have come to the floor, and those before the cursor are past it.
#[derive(Clone, Copy)]
pub struct Ahead {
    pub floor: usize,
    pub cursor: usize,
}

// One step of a run by bounds.
pub fn advance(sheet: &mut [u16], sizes: &mut [u16], low: &mut [u16], redex: Redex) -> Ahead
    requires come_to { ComeTo redex.rule redex.place sheet.old sizes.old low.old }
    requires applies { Applies redex sheet.old }
    ensures sheet_after { sheet.new ≡ stepped_by redex sheet.old }
    ensures come_to_2 { ComeTo result.floor result.cursor sheet.new sizes.new low.new }
{
    let reach = move_on(sheet, sizes, low, redex);
    let used = usize::from(sheet[1]);
    let to = reach.to.min(used);
    let from = reach.from.min(to);
    let floor = run_bounds::raise_all(sheet, sizes, low, from, to, redex.rule);
    Ahead {
        floor,
        cursor: from,
    }
}
