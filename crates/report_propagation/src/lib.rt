// Propagation: what the parts of a sheet force becomes known, and each part that may force more is looked at again. A trail lists
// the literals that failed, in order; for each part it is noted how long the trail was when the part was last looked at.
#![tactic(auto)]

ghost use Rattle.std.specs.Prelude.{◌≡◌, true, false, ℕ, ◌+◌, ◌<◌, length, get_or, set, replicate, MatchOption, MatchResult};
ghost use Rattle.model.specs.Base.{pick};
ghost use Rattle.model.specs.Limits.{sheet_length, most_literals};
ghost use Rattle.model.specs.Sheet.{report_in};
ghost use Rattle.theory_meaning.specs.FailedLiterals.{HasReport};
ghost use Rattle.theory_forms.specs.Sheets.{Formed};
ghost use Rattle.report_breaking.specs.Breaking.{opposite};
ghost use Rattle.report_parts.specs.Parts.{Part, Parted, links_length, Descends, Linked};
ghost use Rattle.report_propagation.specs.Trails.{unset, fresh, Facts, HasFallen, Lone, Looked};
ghost use Rattle.report_propagation.specs.Trails.{PartEnds, Watching, due, PassedTo, NextDue};

use common_limits::{MOST_LITERALS, SHEET_LENGTH, SHEET_ROOM};
use report_parts::LINKS_LENGTH;

// Parts of fewer numbers than this are looked at before all others.
const SMALL_PART: usize = 16;

// A part of a sheet: the numbers from one place to another.
#[derive(Clone, Copy)]
pub struct Extent {
    pub from: usize,
    pub to: usize,
}

// Which literal of the trail is followed, the entry of its chain that was come to, and the number of numbers that a part must be
// below to be looked at for it.
#[derive(Clone, Copy)]
pub struct Turn {
    pub index: usize,
    pub place: usize,
    pub limit: usize,
}

// What the literals of a part tell of what it forces.
#[derive(Clone, Copy)]
pub enum Forced {
    Only(usize),
    Nothing,
    Fails,
    Untold,
}

// What is known: which literals failed, the trail of them in order, and how many it has.
#[derive(Drop)]
pub struct Known {
    pub failed: [u8; MOST_LITERALS],
    pub trail: [u16; MOST_LITERALS],
    pub count: usize,
}

impl Known {
    // Nothing is known.
    pub fn nothing() -> Known
        ensures failed { result.failed ≡ replicate most_literals 0 }
        ensures trail { length result.trail ≡ most_literals }
        ensures count { result.count ≡ 0 }
    {
        Known {
            failed: [0; MOST_LITERALS],
            trail: [0; MOST_LITERALS],
            count: 0,
        }
    }

    // The literal at a place is forced, so it becomes a fact: its complement fails, and joins the trail where it did not fail before.
    fn learn(&mut self, k: usize)
        requires k_lt_most_literals { k < most_literals }
        requires failed_len { (length self.old.failed ≡ most_literals) × (self.old.count + unset self.old.failed ≡ most_literals) }
        ensures value { self.new.count ≡ pick (fresh self.old.failed k) (self.old.count + 1) self.old.count }
        ensures failed_after { self.new.failed ≡
            pick (fresh self.old.failed k) (set self.old.failed (opposite k) 1) self.old.failed }
        ensures trail_after { self.new.trail ≡
            pick (fresh self.old.failed k) (set self.old.trail self.old.count (opposite k)) self.old.trail }
    {
        let other = report_breaking::opposite_of(k);
        if self.failed[other] != 1 {
            self.failed[other] = 1;
            self.trail[self.count] = other as u16;
            self.count += 1;
        }
    }
}

// What a pass over a part writes in; what it holds before does not matter.
#[derive(Drop)]
struct Scratch {
    places: [u16; SHEET_ROOM],
    stack: [u16; SHEET_ROOM],
}

// The sheet has fallen: a part fails under what is known.
#[derive(Clone, Copy)]
pub struct Fallen;

// What a part forces that is a literal, or a disjunction that begins with literals: nothing where two of them, unlike one another,
// do not fail. Of literals alone: the only one that does not fail, which may stand there more than once, or that all fail. Of any
// other part its literals do not tell.
fn lone(sheet: &[u16], part: Extent, failed: &[u8; MOST_LITERALS]) -> Forced
    requires formed { Formed sheet.now }
    requires part { Part sheet.now part.from part.to }
    requires failed_len { length failed.now ≡ most_literals }
    ensures { Lone sheet.now part.from part.to failed.now result }
{
    let from = part.from;
    let begin = if common_nodes::kind_of(usize::from(sheet[from])) == 4 {
        from + 1
    } else {
        from
    };
    let mut only = None;
    for x in &sheet[begin..part.to] {
        let x = usize::from(*x);
        if !common_nodes::is_literal(x) {
            return Forced::Untold;
        }
        let place = common_nodes::place_of(x);
        if failed[place] != 1 {
            match only {
                Some(other) if other != place => return Forced::Nothing,
                _ => only = Some(place),
            }
        }
    }
    match only {
        Some(place) => Forced::Only(place),
        None => Forced::Fails,
    }
}

// Each literal that a part forces becomes known; the literals that break it are found in one pass. A part that fails as it is makes
// the sheet fall.
fn look_inside(
    sheet: &[u16],
    part: Extent,
    known: &mut Known,
    scratch: &mut Scratch,
) -> Result<(), Fallen>
    requires formed { Formed sheet.now }
    requires part { Part sheet.now part.from part.to }
    requires facts { Facts sheet.now known.old.failed known.old.trail known.old.count }
    ensures { MatchResult result
        (λ _. Looked sheet.now part.from part.to
        known.old.failed known.old.trail known.old.count known.new.failed known.new.trail known.new.count)
        (λ _. HasFallen sheet.now known.new.failed) }
{
    let Scratch { places, stack } = scratch;
    let n = report_breaking::breaking(
        &sheet[part.from..part.to],
        &known.failed,
        places,
        stack,
    ).ok_or(Fallen)?;
    for place in &places[..n] {
        known.learn(usize::from(*place));
    }
    Ok(())
}

// The same, without that pass where the part's literals tell enough.
fn look(sheet: &[u16], part: Extent, known: &mut Known, scratch: &mut Scratch) -> Result<(), Fallen>
    requires formed { Formed sheet.now }
    requires part { Part sheet.now part.from part.to }
    requires facts { Facts sheet.now known.old.failed known.old.trail known.old.count }
    ensures { MatchResult result
        (λ _. Looked sheet.now part.from part.to
        known.old.failed known.old.trail known.old.count known.new.failed known.new.trail known.new.count)
        (λ _. HasFallen sheet.now known.new.failed) }
{
    match lone(sheet, part, &known.failed) {
        Forced::Only(place) => {
            known.learn(place);
            Ok(())
        }
        Forced::Nothing => Ok(()),
        Forced::Fails => Err(Fallen),
        Forced::Untold => look_inside(sheet, part, known, scratch),
    }
}

// Looks at each part once.
fn look_at_all(
    sheet: &[u16],
    ends: &[u16; SHEET_LENGTH],
    seen: &mut [u16; SHEET_LENGTH],
    known: &mut Known,
    scratch: &mut Scratch,
) -> Result<(), Fallen>
    requires formed { Formed sheet.now }
    requires part_ends { PartEnds sheet.now ends.now }
    requires watching { Watching sheet.now ends.now 0 seen.old known.old.failed known.old.trail known.old.count }
    ensures { MatchResult result
        (λ _. Watching sheet.now ends.now sheet_length seen.new known.new.failed known.new.trail known.new.count)
        (λ _. HasFallen sheet.now known.new.failed) }
{
    for (from, end) in ends.iter().enumerate() {
        let to = usize::from(*end);
        if 0 < to {
            seen[from] = known.count as u16;
            look(sheet, Extent { from, to }, known, scratch)?;
        }
    }
    Ok(())
}

// Whether a turn has a part looked at that was last looked at when the trail was so long: there is one, it is below the turn's
// limit, and the trail did not have the turn's literal.
fn is_due(part: Extent, seen: usize, turn: Turn) -> bool
    ensures { result ≡ due part seen turn }
{
    part.from < part.to && part.to - part.from < turn.limit && seen <= turn.index
}

// The turn of a literal of the trail: its chain is followed from its own entry on.
fn turn_of(trail: &[u16; MOST_LITERALS], index: usize, limit: usize) -> Turn
    requires { index < most_literals }
    ensures { (result.index ≡ index) × (result.place ≡ sheet_length + get_or trail.now index 0) × (result.limit ≡ limit) }
{
    Turn {
        index,
        place: SHEET_LENGTH + usize::from(trail[index]),
        limit,
    }
}

// The part that holds the number at a place.
fn part_at(ends: &[u16; SHEET_LENGTH], homes: &[u16; SHEET_LENGTH], n: usize) -> Extent
    requires n_lt_sheet_length { n < sheet_length }
    requires n_bound { get_or homes.now n 0 < sheet_length }
    ensures { (result.from ≡ get_or homes.now n 0) × (result.to ≡ get_or ends.now result.from 0) }
{
    let from = usize::from(homes[n]);
    Extent {
        from,
        to: usize::from(ends[from]),
    }
}

// The next place of a literal whose part is below the turn's limit and was not looked at since the trail has the literal.
fn next_due(
    ends: &[u16; SHEET_LENGTH],
    homes: &[u16; SHEET_LENGTH],
    links: &[u16; LINKS_LENGTH],
    seen: &[u16; SHEET_LENGTH],
    turn: Turn,
) -> Option<usize>
    requires place_lt_links_length { turn.place < links_length }
    requires descends { Descends links.now }
    requires by_index { (n : ℕ) → get_or homes.now n 0 < sheet_length }
    ensures { MatchOption result
        (PassedTo ends.now homes.now links.now seen.now turn 0)
        (NextDue ends.now homes.now links.now seen.now turn) }
{
    let mut n = usize::from(links[turn.place]);
    // A `while`, since each turn follows a link; 0 is the end of a chain.
    while 0 < n {
        let part = part_at(ends, homes, n);
        if is_due(part, usize::from(seen[part.from]), turn) {
            return Some(n);
        }
        n = usize::from(links[n]);
    }
    None
}

// Looks at each part, and then again at the parts that hold a literal of the trail, until its end: at small parts first, and at all
// where no small one is left.
fn settle(
    sheet: &[u16],
    ends: &[u16; SHEET_LENGTH],
    homes: &[u16; SHEET_LENGTH],
    links: &[u16; LINKS_LENGTH],
    seen: &mut [u16; SHEET_LENGTH],
    known: &mut Known,
) -> Result<(), Fallen>
    requires formed { Formed sheet.now }
    requires parted { Parted sheet.now ends.now homes.now }
    requires linked { Linked sheet.now links.now }
    requires seen_value { seen.old ≡ replicate sheet_length 0 }
    requires failed_value { known.old.failed ≡ replicate most_literals 0 }
    requires trail_len { length known.old.trail ≡ most_literals }
    ensures has_report { HasReport sheet.now known.new.failed }
    ensures value { MatchResult result
        (λ _. false ≡ (report_in sheet.now).contradictory)
        (λ _. true ≡ (report_in sheet.now).contradictory) }
{
    let mut scratch = Scratch {
        places: [0; SHEET_ROOM],
        stack: [0; SHEET_ROOM],
    };
    known.count = 0;
    look_at_all(sheet, ends, seen, known, &mut scratch)?;
    let mut small = 0;
    let mut large = 0;
    // No part is below the first turn's limit, so that it ends at once.
    let mut turn = Turn {
        index: 0,
        place: 0,
        limit: 0,
    };
    loop {
        if let Some(n) = next_due(ends, homes, links, seen, turn) {
            let part = part_at(ends, homes, n);
            seen[part.from] = known.count as u16;
            look(sheet, part, known, &mut scratch)?;
            turn.place = n;
        } else if small < known.count {
            turn = turn_of(&known.trail, small, SMALL_PART);
            small += 1;
        } else if large < known.count {
            turn = turn_of(&known.trail, large, SHEET_LENGTH);
            large += 1;
        } else {
            return Ok(());
        }
    }
}

// Settles the sheet's parts. Whether the sheet is contradictory.
pub fn follow(
    sheet: &[u16],
    ends: &[u16; SHEET_LENGTH],
    homes: &[u16; SHEET_LENGTH],
    links: &[u16; LINKS_LENGTH],
    seen: &mut [u16; SHEET_LENGTH],
    known: &mut Known,
) -> bool
    requires formed { Formed sheet.now }
    requires parted { Parted sheet.now ends.now homes.now }
    requires linked { Linked sheet.now links.now }
    requires seen_value { seen.old ≡ replicate sheet_length 0 }
    requires failed_value { known.old.failed ≡ replicate most_literals 0 }
    requires trail_len { length known.old.trail ≡ most_literals }
    ensures has_report { HasReport sheet.now known.new.failed }
    ensures value { result ≡ (report_in sheet.now).contradictory }
{
    settle(sheet, ends, homes, links, seen, known).is_err()
}
