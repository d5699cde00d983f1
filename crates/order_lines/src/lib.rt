// The lines of an order as they are lent: copied out, so that code over them needs no slice of structs, and moved up by one.
#![tactic(auto)]

ghost use Rattle.std.specs.Prelude.{◌≡◌, ◌<◌, ◌≤◌, length};
ghost use Rattle.order_lines.specs.LentLines.{readable, judged, copied_lines, moved_up};

// The slots of a lent list, and the most lines that are counted in it.
pub const SLOTS: usize = 64;

pub const MOST_LINES: u16 = 64;

// A line: an option, and whether it is barred.
#[repr(C)]
#[derive(Clone, Copy)]
pub struct Line {
    pub option: u16,
    pub negative: bool,
}

// What stands where no line is.
const BLANK: Line = Line {
    option: 0,
    negative: false,
};

// How many lines may be read: the count, where there are 64 slots and no more lines than slots; else none.
fn readable(slots: usize, count: u16) -> usize
    ensures { result ≡ readable slots count }
{
    if slots == SLOTS && count <= MOST_LINES {
        usize::from(count)
    } else {
        0
    }
}

// The count by which lines are judged: with another number of slots one that is over the limit, as such lines are refused alike.
pub fn judged(slots: usize, count: u16) -> u16
    ensures { result ≡ judged slots count }
{
    if slots == SLOTS {
        count
    } else {
        MOST_LINES + 1
    }
}

// The counted lines by value; the other places are blank. A slot past the count is never read.
pub fn copied(lines: &[Line], count: u16) -> [Line; SLOTS]
    ensures { result ≡ copied_lines lines.now count }
{
    let many = readable(lines.len(), count);
    let mut all = [BLANK; SLOTS];
    all[..many].copy_from_slice(&lines[..many]);
    all
}

// Each line from k + 1 on takes the place before it, up to place `last`, which keeps what it held.
pub fn move_up(lines: &mut [Line], k: usize, last: usize)
    requires { (k ≤ last) × (last < length lines.old) }
    ensures { lines.new ≡ moved_up k last lines.old }
{
    lines.copy_within(k + 1..=last, k);
}
