// The sizes of all trees on a run of numbers, made in one pass from the right, so that children are found by hopping.
#![tactic(auto)]

ghost use Rattle.std.specs.Prelude.{false, ◌≡◌, ℕ, ◌+◌, ◌≤◌, ◌<◌, length, get_or, drop};
ghost use Rattle.model.specs.Limits.{sheet_room};
ghost use Rattle.theory_reading.specs.Spans.{span};
ghost use Rattle.search_sizes.specs.Ranges.{block};
ghost use Rattle.search_sizes.specs.SizeTables.{SizesFrom, NonePast};

// So many places are looked at together.
pub const BLOCK: usize = 32;

// The end of the tree at a place, by the sizes of those after it. A literal has no children, and neither has a node of value 0.
fn end_at(s: &[u16], sizes: &[u16], place: usize) -> usize
    requires place_in_bounds { (place < length s.now)
        × (length s.now ≤ sheet_room)
        × (length sizes.now ≡ length s.now) }
    requires sizes_from { SizesFrom (place + 1) s.now sizes.now }
    ensures { (result ≡ place + span 1 (drop place s.now))
        × (result ≤ sheet_room) }
{
    let node = usize::from(s[place]);
    let mut next = place + 1;
    if common_nodes::is_literal(node) || common_nodes::value_of(node) == 0 {
        return next;
    }
    for _ in 0..common_nodes::children_of(node) {
        if next == s.len() {
            break;
        }
        next += usize::from(sizes[next]);
    }
    next
}

// The sizes from one place up to another, where those after them are right.
pub fn refill(s: &[u16], sizes: &mut [u16], from: usize, to: usize)
    requires s_len_bound { (length s.now ≤ sheet_room)
        × (length sizes.old ≡ length s.now)
        × (from ≤ to)
        × (to ≤ length s.now) }
    requires sizes_from { SizesFrom to s.now sizes.old }
    ensures sizes_from_2 { SizesFrom from s.now sizes.new }
    ensures by_index { (q : ℕ) → q < from → get_or sizes.new q 0 ≡ get_or sizes.old q 0 }
{
    for place in (from..to).rev() {
        sizes[place] = (end_at(s, sizes, place) - place) as u16;
    }
}

// The sizes of all.
pub fn fill(s: &[u16], sizes: &mut [u16])
    requires { (length s.now ≤ sheet_room)
        × (length sizes.old ≡ length s.now) }
    ensures { SizesFrom 0 s.now sizes.new }
{
    refill(s, sizes, 0, s.len());
}

// Whether the tree at one of a block of places, from one on, reaches past a later place: where not, none does. The loop has no way out and
// its numbers are narrow, so that the compiler looks at eight at a time.
fn some_reaching(sizes: &[u16], from: usize, place: usize) -> bool
    requires { (from + block ≤ length sizes.now)
        × (from + block ≤ place)
        × (place ≤ sheet_room) }
    ensures { result ≡ false → NonePast place from (from + block) sizes.now }
{
    let gap = (place - from) as u16;
    let mut some = false;
    for k in 0..BLOCK {
        some |= gap - (k as u16) < sizes[from + k];
    }
    some
}

// Back from one place, block by block over those of which no tree reaches past a later place: the first place of these blocks. A
// `while`, since each turn hops by a block.
fn before_blocks(sizes: &[u16], below: usize, place: usize) -> usize
    requires { (below ≤ length sizes.now)
        × (below ≤ place)
        × (place ≤ sheet_room) }
    ensures { (result ≤ below)
        × NonePast place result below sizes.now }
{
    let mut q = below;
    while BLOCK <= q && !some_reaching(sizes, q - BLOCK, place) {
        q -= BLOCK;
    }
    q
}

// The nearest place below another whose tree reaches past a later place; that other place itself where there is none.
pub fn holder(sizes: &[u16], below: usize, place: usize) -> usize
    requires { (below ≤ length sizes.now)
        × (length sizes.now ≤ sheet_room)
        × (below ≤ place)
        × (place ≤ sheet_room) }
    ensures upper_bound { (result ≤ below)
        × (result < below → place < result + get_or sizes.now result 0) }
    ensures by_index { (q : ℕ) → q < below → place < q + get_or sizes.now q 0 → (result < below) × (q ≤ result) }
{
    for q in (0..before_blocks(sizes, below, place)).rev() {
        if place < q + usize::from(sizes[q]) {
            return q;
        }
    }
    below
}
