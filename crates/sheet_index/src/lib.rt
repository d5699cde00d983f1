// The index of mentions, kept beside a sheet: option after option the count of its marks and the place of the first. It is filled from the
// sheet, compared with a fresh one, and brought up to date for a mark that was appended. Numbers past twice N are neither read nor written.
#![tactic(auto)]

ghost use Rattle.std.specs.Prelude.{true, [], ◌≡◌, ◌+◌, ◌*◌, ◌<◌, ◌≤◌, length, get_or, take};
ghost use Rattle.model.specs.Base.{placed};
ghost use Rattle.model.specs.Sheet.{used_in, is_sheet};
ghost use Rattle.calls.specs.Index.{no_place, entries, fresh_count};
ghost use Rattle.calls.specs.Conditions.{index_length, has_short_index, has_stale_index};
ghost use Rattle.theory_forms.specs.Scan.{is_literal};
ghost use Rattle.theory_index.specs.Entries.{mentioned_first, mentioned_last};
ghost use Rattle.sheet_index.specs.Walk.{four_alike, eight_alike, fresh_from};

use common_limits::{KIND_FACTOR, MOST_OPTIONS};

// The place of the first mark of an option that has none.
const NO_PLACE: u16 = 65535;

// The numbers of kinds 1 and 2 end here.
const MARKS_END: usize = 3 * KIND_FACTOR;

// The numbers of the index of a sheet with as many options as there may be.
const MOST_NUMBERS: usize = 2 * MOST_OPTIONS;

// Whether a number is a mark: those of kinds 1 and 2 stand side by side, so two comparisons tell.
fn is_mark(x: usize) -> bool
    ensures { result ≡ is_literal x }
{
    (KIND_FACTOR..MARKS_END).contains(&x)
}

// No mark of so many options.
fn clear(index: &mut [u16], options: usize)
    requires { 2 * options ≤ length index.old }
    ensures { index.new ≡ placed (entries 0 options []) index.old }
{
    for v in 0..options {
        let at = 2 * v;
        index[at] = 0;
        index[at + 1] = NO_PLACE;
    }
}

// So many marks more of one option, before all others: its count rises by as many, and the place of the first of them is the first.
#[tactic(auto, unfolding(theory_index::specs::Entries::mentioned_first, theory_index::specs::Entries::entry_set))]
fn mention_first(index: &mut [u16], option: usize, marks: u16, place: u16)
    requires { (2 * option + 1 < length index.old) × (get_or index.old (2 * option) 0 + marks ≤ no_place) }
    ensures { index.new ≡ mentioned_first option marks place index.old }
{
    let at = 2 * option;
    index[at] += marks;
    index[at + 1] = place;
}

// A mark more, after all others: its option's count rises by one; where there was no first place it is this one.
pub fn mention_last(index: &mut [u16], option: usize, place: u16)
    requires { (2 * option + 1 < length index.old) × (get_or index.old (2 * option) 0 < no_place) }
    ensures { index.new ≡ mentioned_last option place index.old }
{
    let at = 2 * option;
    index[at] += 1;
    if index[at + 1] == NO_PLACE {
        index[at + 1] = place;
    }
}

// The node at a place, before all that are counted.
fn count_node(sheet: &[u16], index: &mut [u16], place: usize)
    requires { (is_sheet sheet.now ≡ true) × (place + 1 ≤ used_in sheet.now) ×
        (take (index_length sheet.now) index.old ≡ fresh_from sheet.now (place + 1)) }
    ensures { index.new ≡ placed (fresh_from sheet.now place) index.old }
{
    let x = usize::from(sheet[2 + place]);
    if is_mark(x) {
        mention_first(index, common_nodes::value_of(x), 1, place as u16);
    }
}

// Four nodes, one by one.
fn count_four(sheet: &[u16], index: &mut [u16], place: usize)
    requires { (is_sheet sheet.now ≡ true) × (place + 4 ≤ used_in sheet.now) ×
        (take (index_length sheet.now) index.old ≡ fresh_from sheet.now (place + 4)) }
    ensures { index.new ≡ placed (fresh_from sheet.now place) index.old }
{
    count_node(sheet, index, place + 3);
    count_node(sheet, index, place + 2);
    count_node(sheet, index, place + 1);
    count_node(sheet, index, place);
}

// Whether the number at a place and the three after it are the same.
#[tactic(auto, unfolding(crate::specs::Walk::four_alike))]
fn four_alike(sheet: &[u16], at: usize) -> bool
    requires { at + 3 < length sheet.now }
    ensures { result ≡ four_alike sheet.now at }
{
    let x = sheet[at];
    x == sheet[at + 1] && x == sheet[at + 2] && x == sheet[at + 3]
}

// The same of the seven after it.
#[tactic(auto, unfolding(crate::specs::Walk::eight_alike))]
fn eight_alike(sheet: &[u16], at: usize) -> bool
    requires { at + 7 < length sheet.now }
    ensures { result ≡ eight_alike sheet.now at }
{
    four_alike(sheet, at) && four_alike(sheet, at + 4) && sheet[at] == sheet[at + 4]
}

// Eight nodes. Where they are one and the same mark, it is counted eight times at once: one by one, each count would wait until the one
// before it is stored.
fn count_eight(sheet: &[u16], index: &mut [u16], place: usize)
    requires { (is_sheet sheet.now ≡ true) × (place + 8 ≤ used_in sheet.now) ×
        (take (index_length sheet.now) index.old ≡ fresh_from sheet.now (place + 8)) }
    ensures { index.new ≡ placed (fresh_from sheet.now place) index.old }
{
    if eight_alike(sheet, 2 + place) {
        let each = usize::from(sheet[2 + place]);
        if is_mark(each) {
            mention_first(index, common_nodes::value_of(each), 8, place as u16);
        }
    } else {
        count_four(sheet, index, place + 4);
        count_four(sheet, index, place);
    }
}

// The first nodes, one by one.
fn count_few(sheet: &[u16], index: &mut [u16], few: usize)
    requires { (is_sheet sheet.now ≡ true) × (few ≤ used_in sheet.now) ×
        (take (index_length sheet.now) index.old ≡ fresh_from sheet.now few) }
    ensures { index.new ≡ placed (fresh_from sheet.now 0) index.old }
{
    for place in (0..few).rev() {
        count_node(sheet, index, place);
    }
}

// The index of a sheet, whatever it held. The nodes are read from the last to the first, so that the place of each mark is stored without a
// test: that of the first stays.
pub fn fill(sheet: &[u16], index: &mut [u16])
    requires { (is_sheet sheet.now ≡ true) × (index_length sheet.now ≤ length index.old) }
    ensures { index.new ≡ placed (fresh_count sheet.now) index.old }
{
    clear(index, usize::from(sheet[0]));
    let used = usize::from(sheet[1]);
    let few = used % 8;
    for eight in (0..used / 8).rev() {
        count_eight(sheet, index, few + 8 * eight);
    }
    count_few(sheet, index, few);
}

// Whether an index is shorter than two numbers an option.
pub fn is_short(sheet: &[u16], index: &[u16]) -> bool
    requires { is_sheet sheet.now ≡ true }
    ensures { result ≡ has_short_index sheet.now index.now }
{
    index.len() < 2 * usize::from(sheet[0])
}

// Whether an index is long enough, and not that of the sheet.
pub fn is_stale(sheet: &[u16], index: &[u16]) -> bool
    requires { is_sheet sheet.now ≡ true }
    ensures { result ≡ has_stale_index sheet.now index.now }
{
    if is_short(sheet, index) {
        return false;
    }
    let mut fresh = [0u16; MOST_NUMBERS];
    fill(sheet, &mut fresh);
    let end = 2 * usize::from(sheet[0]);
    index[..end] != fresh[..end]
}
