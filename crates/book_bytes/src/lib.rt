// A book's bytes as numbers and a sheet's numbers as bytes: fills, copies and the parts of a written book.
#![tactic(auto)]

ghost use Rattle.std.specs.Prelude.{◌≡◌, ◌++◌, ◌∷◌, [], ◌-◌, ◌*◌, ◌≤◌, ◌<◌, ◌+◌, ◌/◌, ◌%◌, length, drop, replicate, take, set};
ghost use Rattle.model.specs.Book.{words, bytes_of, lined_up};
ghost use Rattle.model.specs.Limits.{head_length, sheet_room};
ghost use Rattle.theory_reading.specs.Spans.{spans};

// The numbers that a slice of bytes spells, put at the start of another.
fn put_numbers(s: &[u8], count: usize, out: &mut [u16])
    requires { (count ≤ length out.old) × (2 * count ≤ length s.now) }
    ensures { out.new ≡ words count s.now ++ drop count out.old }
{
    for i in 0..count {
        out[i] = common_nodes::number_at(s, 2 * i);
    }
}

// The numbers that a slice of bytes spells, and zeros to the end.
pub fn fill_numbers(s: &[u8], count: usize, out: &mut [u16])
    requires { (count ≤ length out.old) × (2 * count ≤ length s.now) }
    ensures { out.new ≡ words count s.now ++ replicate (length out.old - count) 0 }
{
    put_numbers(s, count, out);
    sheet_shifts::clear_from(out, count);
}

// Three numbers, at the start of a slice.
pub fn put_three(out: &mut [u16], x: usize, y: usize, z: usize)
    requires { (3 ≤ length out.old) × (x < 65536) × (y < 65536) × (z < 65536) }
    ensures { out.new ≡ x ∷ y ∷ z ∷ drop 3 out.old }
{
    out[0] = x as u16;
    out[1] = y as u16;
    out[2] = z as u16;
}

// A number as two bytes at a place, the low one first.
pub fn put_word(out: &mut [u8], k: usize, x: usize)
    requires { k + 1 < length out.old }
    ensures { out.new ≡ set (set out.old k (x % 256)) (k + 1) (x / 256 % 256) }
{
    let [low, high, ..] = x.to_le_bytes();
    out[k] = low;
    out[k + 1] = high;
}

// The four numbers of the head.
pub fn put_head(out: &mut [u8], n: usize, m: usize, t: usize)
    requires { head_length ≤ length out.old }
    ensures { out.new ≡ bytes_of (n ∷ m ∷ t ∷ 0 ∷ []) ++ drop head_length out.old }
{
    put_word(out, 0, n);
    put_word(out, 2, m);
    put_word(out, 4, t);
    put_word(out, 6, 0);
}

// The first bytes of one slice, at the start of another.
pub fn copy(s: &[u8], count: usize, out: &mut [u8])
    requires { (count ≤ length s.now) × (count ≤ length out.old) }
    ensures { out.new ≡ take count s.now ++ drop count out.old }
{
    out[..count].copy_from_slice(&s[..count]);
}

// Numbers as bytes, at the start of a slice.
fn put_bytes(s: &[u16], out: &mut [u8])
    requires { 2 * length s.now ≤ length out.old }
    ensures { out.new ≡ bytes_of s.now ++ drop (2 * length s.now) out.old }
{
    for (i, x) in s.iter().enumerate() {
        put_word(out, 2 * i, usize::from(*x));
    }
}

// Where each of so many trees begins, and its node count.
fn put_contents(s: &[u16], m: usize, out: &mut [u8])
    requires { (length s.now ≤ sheet_room) × (4 * m ≤ length out.old) }
    ensures { out.new ≡ bytes_of (lined_up 0 (spans m s.now)) ++ drop (4 * m) out.old }
{
    let mut at = 0;
    for k in 0..m {
        let count = common_nodes::span_of(&s[at..], 1);
        put_word(out, 4 * k, at);
        put_word(out, 4 * k + 2, count);
        at += count;
    }
}

// The contents of so many trees, and the numbers of their nodes.
fn put_trees(s: &[u16], m: usize, out: &mut [u8])
    requires { (length s.now ≤ sheet_room) × (4 * m + 2 * length s.now ≤ length out.old) }
    ensures { let l = s.now in
        out.new ≡ (bytes_of (lined_up 0 (spans m l)) ++ bytes_of l) ++ drop (4 * m + 2 * length l) out.old }
{
    put_contents(s, m, out);
    let bodies = 4 * m;
    put_bytes(s, &mut out[bodies..]);
}

// Codes, and the trees after them.
pub fn put_parts(codes: &[u8], s: &[u16], m: usize, out: &mut [u8])
    requires { (length s.now ≤ sheet_room) × (length codes.now + (4 * m + 2 * length s.now) ≤ length out.old) }
    ensures { let l = s.now in
        let b = codes.now in
        out.new ≡ (b ++ (bytes_of (lined_up 0 (spans m l)) ++ bytes_of l))
        ++ drop (length b + (4 * m + 2 * length l)) out.old }
{
    let contents = codes.len();
    copy(codes, contents, out);
    put_trees(s, m, &mut out[contents..]);
}
