// The order sheet: 4,098 numbers.
#![tactic(auto)]

ghost use Rattle.std.specs.Prelude.{◌≡◌, ◌&&◌, map, ◌≤◌, eqb, length, take};
ghost use Rattle.model.specs.Base.{all};
ghost use Rattle.model.specs.Limits.{most_options, sheet_room};
ghost use Rattle.model.specs.Forest.{all_seated};
ghost use Rattle.model.specs.Code.{decode, node_of, one_tree};
ghost use Rattle.model.specs.Sheet.{rooted, is_sheet};

use common_limits::{MOST_OPTIONS, SHEET_LENGTH, SHEET_ROOM};
use common_weight::MOST_WEIGHT;

// The first so many numbers are one tree with the root at its head and nowhere else, for n options, its members in their seats.
fn is_rooted_tree(s: &[u16], used: usize, n: usize) -> bool
    requires { (1 ≤ used)
        × (used ≤ sheet_room)
        × (used ≤ length s.now)
        × (n ≤ most_options) }
    ensures { result ≡ (rooted n (take used s.now)
        && one_tree (map node_of (take used s.now))
        && all_seated (decode (map node_of (take used s.now)))) }
{
    let head = usize::from(s[0]);
    common_nodes::kind_of(head) == 5
        && common_members::count_trees(&s[1..used], n) == Some(common_nodes::children_of(head))
}

// Every number is zero. All are read, with no way out before the last, so that the machine can take many at a time.
fn is_clear(s: &[u16]) -> bool
    ensures { result ≡ all (eqb 0) s.now }
{
    let mut clear = true;
    for x in s {
        clear &= *x == 0;
    }
    clear
}

// Is it a sheet? The used count is tested before anything is summed.
pub fn is_sheet(s: &[u16]) -> bool
    ensures { result ≡ is_sheet s.now }
{
    if s.len() != SHEET_LENGTH {
        return false;
    }
    let n = usize::from(s[0]);
    let used = usize::from(s[1]);
    if MOST_OPTIONS < n || used < 1 || SHEET_ROOM < used {
        return false;
    }
    common_weight::weigh_sheet(s) <= MOST_WEIGHT
        && is_clear(&s[2 + used..])
        && is_rooted_tree(&s[2..], used, n)
}
