// Codes that are all well-formed and different: each is compared with the later ones of its hash, which are chained.
#![tactic(auto)]

ghost use Rattle.std.specs.Prelude.{◌≡◌, ◌+◌, ◌*◌, ◌-◌, ◌≤◌, ◌<◌, length, take, drop};
ghost use Rattle.model.specs.Base.{any};
ghost use Rattle.model.specs.Limits.{most_options, code_length};
ghost use Rattle.model.specs.Book.{same_code, codes_ok, pieces};
ghost use Rattle.book_codes.specs.Characters.{character_table};
ghost use Rattle.book_distinct_codes.specs.Hashes.{quad, buckets, hash, Walk, comes_after};

use book_codes::BYTES;
use common_limits::{CODE_LENGTH, MOST_OPTIONS};

// A list of codes for each hash: a hash has ten bits.
const BUCKETS: usize = 1024;

// The first of n codes equals a later one.
fn is_repeated(s: &[u8], n: usize) -> bool
    requires { (1 ≤ n) × (code_length * n ≤ length s.now) }
    ensures { let l = s.now in
        result ≡ any (same_code (take code_length l)) (pieces code_length (n - 1) (drop code_length l)) }
{
    for i in 1..n {
        if book_codes::is_same(s, &s[CODE_LENGTH * i..]) {
            return true;
        }
    }
    false
}

// Four bytes from a place on as one number.
fn quad_at(s: &[u8], k: usize) -> u32
    requires { k + 4 ≤ length s.now }
    ensures { result ≡ quad s.now k }
{
    u32::from_le_bytes([s[k], s[k + 1], s[k + 2], s[k + 3]])
}

// The hash of the first code: ten bits to which each of its 13 bytes contributes. The factors are odd and have no meaning; they
// were taken because codes that differ in any two of their bytes, or in a number, spread well.
fn hash_of(s: &[u8]) -> usize
    requires { code_length ≤ length s.now }
    ensures { (result ≡ hash (take code_length s.now)) × (result < buckets) }
{
    let start = 590689913 * quad_at(s, 0) as usize + 886825557 * quad_at(s, 4) as usize;
    let end = 694313169 * quad_at(s, 8) as usize + 932360273 * usize::from(s[12]);
    (start + end) / 4194304 % BUCKETS
}

// Code i of n equals a later one. A place leads to the next code of the same hash, `from` is the first after i.
fn comes_again(s: &[u8], n: usize, i: usize, next: &[u16; MOST_OPTIONS], from: usize) -> bool
    requires { Walk n s.now i next.now from }
    ensures { result ≡ comes_after n s.now i }
{
    let code = &s[CODE_LENGTH * i..];
    let mut q = from;
    // The places are those that `next` leads to: no range goes over them.
    while q < n {
        if book_codes::is_same(code, &s[CODE_LENGTH * q..]) {
            return true;
        }
        q = usize::from(next[q]);
    }
    false
}

// Each of n codes, no more than the tables hold, is well-formed and equals no other. The codes are entered from the last on:
// `first` has for a hash the first code entered so far, `next` for a code the next one of its hash, and 65535 stands for none.
fn are_few_codes(s: &[u8], n: usize, characters: &[bool; BYTES]) -> bool
    requires { (n ≤ most_options) × (code_length * n ≤ length s.now) × (characters.now ≡ character_table) }
    ensures { result ≡ codes_ok (pieces code_length n s.now) }
{
    let mut first = [65535u16; BUCKETS];
    let mut next = [65535u16; MOST_OPTIONS];
    for i in (0..n).rev() {
        let code = &s[CODE_LENGTH * i..];
        if !book_codes::is_code(code, characters) {
            return false;
        }
        let h = hash_of(code);
        let p = first[h];
        if comes_again(s, n, i, &next, usize::from(p)) {
            return false;
        }
        next[i] = p;
        first[h] = i as u16;
    }
    true
}

// Each of n codes is well-formed and equals no other. Codes that the tables have no room for are compared with every later one.
pub fn are_codes(s: &[u8], n: usize) -> bool
    requires { code_length * n ≤ length s.now }
    ensures { result ≡ codes_ok (pieces code_length n s.now) }
{
    let characters = book_codes::character_table();
    let more = n.saturating_sub(MOST_OPTIONS);
    for i in 0..more {
        let codes = &s[CODE_LENGTH * i..];
        if !book_codes::is_code(codes, &characters) || is_repeated(codes, n - i) {
            return false;
        }
    }
    are_few_codes(&s[CODE_LENGTH * more..], n - more, &characters)
}
