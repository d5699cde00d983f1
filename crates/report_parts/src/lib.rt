// The parts of a sheet: the trees that hang from its root through conjunctions only. The root fails where a part does. And where
// each literal occurs.
#![tactic(auto)]

ghost use Rattle.std.specs.Prelude.{◌≡◌, ◌≤◌, length, replicate};
ghost use Rattle.model.specs.Limits.{sheet_length};
ghost use Rattle.theory_forms.specs.Sheets.{Formed};
ghost use Rattle.report_parts.specs.Parts.{links_length, Claimed, Parted, Linked};

use common_limits::{MOST_LITERALS, SHEET_LENGTH};

// The entries of a table of links: one for each place of a sheet, and behind them one for each literal.
pub const LINKS_LENGTH: usize = SHEET_LENGTH + MOST_LITERALS;

// The numbers from one place to another belong to the part that begins at the first.
fn claim(homes: &mut [u16; SHEET_LENGTH], from: usize, to: usize)
    requires { (from ≤ to) × (to ≤ sheet_length) × (length homes.old ≡ sheet_length) }
    ensures { Claimed from to homes.old homes.new }
{
    homes[from..to].fill(from as u16);
}

// Finds the parts: at the place where a part begins its end is noted, and at the place of each of its numbers where it begins.
pub fn find(sheet: &[u16], ends: &mut [u16; SHEET_LENGTH], homes: &mut [u16; SHEET_LENGTH])
    requires formed { Formed sheet.now }
    requires ends_value { ends.old ≡ replicate sheet_length 0 }
    requires homes_value { homes.old ≡ replicate sheet_length 0 }
    ensures { Parted sheet.now ends.new homes.new }
{
    let end = 2 + usize::from(sheet[1]);
    let mut i = 2;
    // A `while`, since a part is passed in one turn.
    while i < end {
        let k = common_nodes::kind_of(usize::from(sheet[i]));
        if k == 3 || k == 5 {
            i += 1;
        } else {
            let to = i + common_nodes::span_of(&sheet[i..end], 1);
            claim(homes, i, to);
            ends[i] = to as u16;
            i = to;
        }
    }
}

// Links the places of each literal: the last of them is noted behind the places, in the literal's own entry, and at each of them
// the one before it.
pub fn link(sheet: &[u16], links: &mut [u16; LINKS_LENGTH])
    requires formed { Formed sheet.now }
    requires links_value { links.old ≡ replicate links_length 0 }
    ensures { Linked sheet.now links.new }
{
    let end = 2 + usize::from(sheet[1]);
    for i in 2..end {
        let x = usize::from(sheet[i]);
        if common_nodes::is_literal(x) {
            let own = SHEET_LENGTH + common_nodes::place_of(x);
            links[i] = links[own];
            links[own] = i as u16;
        }
    }
}
