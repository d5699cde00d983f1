// Moving, counting and replacing numbers within a stretch: what stays keeps its order, and zeros follow.
#![tactic(auto)]

ghost use Rattle.std.specs.Prelude.{◌≡◌, ◌∷◌, ◌++◌, map, ◌+◌, ◌-◌, ◌≤◌, ◌<◌, length, get_or, take, drop, replicate};
ghost use Rattle.std.proofs.Math.Seq.{slice};
ghost use Rattle.theory_reading.specs.Stretches.{live};
ghost use Rattle.sheet_shifts.specs.Replaced.{replaced};

// Numbers from a place on become zero.
pub fn clear_from(s: &mut [u16], at: usize)
    requires { at ≤ length s.old }
    ensures { s.new ≡ take at s.old ++ replicate (length s.old - at) 0 }
{
    s[at..].fill(0);
}

// So many numbers at a place go; those after them move up, and zeros follow.
pub fn remove(s: &mut [u16], at: usize, count: usize)
    requires { at + count ≤ length s.old }
    ensures { s.new ≡ take at s.old ++ (drop (at + count) s.old ++ replicate count 0) }
{
    s.copy_within(at + count.., at);
    let end = s.len() - count;
    clear_from(s, end);
}

// The number at one place moves to an earlier place; those between move one place to the right.
pub fn move_before(s: &mut [u16], to: usize, from: usize)
    requires { (to ≤ from) × (from < length s.old) }
    ensures { let l = s.old in
        s.new ≡ take to l ++ (get_or l from 0 ∷ take (from - to) (drop to l) ++ drop (from + 1) l) }
{
    s[to..=from].rotate_right(1);
}

// How many numbers stand before the first zero.
pub fn live_count(s: &[u16]) -> usize
    ensures { result ≡ length (live s.now) }
{
    for (i, x) in s.iter().enumerate() {
        if *x == 0 {
            return i;
        }
    }
    s.len()
}

// What a number becomes when `same` and `opposite` are given new values.
fn replacement(n: u16, same: u16, opposite: u16, for_same: u16, for_opposite: u16) -> u16
    ensures { result ≡ replaced same opposite for_same for_opposite n }
{
    if n == same {
        for_same
    } else if n == opposite {
        for_opposite
    } else {
        n
    }
}

// In the places from..to every number equal to `same` or to `opposite` is replaced.
pub fn assign(
    s: &mut [u16],
    from: usize,
    to: usize,
    same: u16,
    opposite: u16,
    for_same: u16,
    for_opposite: u16,
)
    requires { (from ≤ to) × (to ≤ length s.old) }
    ensures { let l = s.old in
        s.new ≡ take from l ++ (map (replaced same opposite for_same for_opposite) (slice from to l) ++ drop to l) }
{
    for x in &mut s[from..to] {
        *x = replacement(*x, same, opposite, for_same, for_opposite);
    }
}
