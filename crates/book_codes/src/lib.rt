// The codes of a book: 13 bytes each, one after another. Each is read and compared, and one is found.
#![tactic(auto)]

ghost use Rattle.std.specs.Prelude.{◌≡◌, ◌*◌, ◌≤◌, length, take, ◌==◌};
ghost use Rattle.std.specs.List.{list_all, between};
ghost use Rattle.model.specs.Limits.{code_length};
ghost use Rattle.model.specs.Book.{character, characters, code_ok, same_code, pieces, option_of_code};
ghost use Rattle.common_lists.specs.Given.{given};
ghost use Rattle.book_codes.specs.Characters.{character_table};

use common_limits::CODE_LENGTH;

// The bytes there are.
pub const BYTES: usize = 256;

// A letter, a digit or a hyphen.
fn is_character(x: u8) -> bool
    ensures { result ≡ character x }
{
    x.is_ascii_alphanumeric() || x == b'-'
}

// Whether each byte is a character: they stand between a hyphen and a small z. The table is made once for all codes of a book; then a byte
// takes one test.
pub fn character_table() -> [bool; BYTES]
    ensures { result ≡ character_table }
{
    let mut table = [false; BYTES];
    for x in b'-'..=b'z' {
        table[usize::from(x)] = is_character(x);
    }
    table
}

// A character, by the table.
fn is_listed(x: u8, table: &[bool; BYTES]) -> bool
    requires { table.now ≡ character_table }
    ensures { result ≡ character x }
{
    table[usize::from(x)]
}

// From a place on, the first 13 bytes are zero.
fn is_zero_from(s: &[u8], from: usize) -> bool
    requires { (code_length ≤ length s.now) × (from ≤ code_length) }
    ensures { result ≡ list_all (λ x. x == 0) (between from code_length s.now) }
{
    s[from..CODE_LENGTH].iter().all(|x| *x == 0)
}

// The first code has 1 to 13 characters, then zero bytes.
pub fn is_code(s: &[u8], table: &[bool; BYTES]) -> bool
    requires { (code_length ≤ length s.now) × (table.now ≡ character_table) }
    ensures { result ≡ code_ok (take code_length s.now) }
{
    if !is_listed(s[0], table) {
        return false;
    }
    for k in 1..CODE_LENGTH {
        if !is_listed(s[k], table) {
            return is_zero_from(s, k);
        }
    }
    true
}

// The first codes of two slices are the same in all 13 bytes.
pub fn is_same(s: &[u8], t: &[u8]) -> bool
    requires { (code_length ≤ length s.now) × (code_length ≤ length t.now) }
    ensures { result ≡ same_code (take code_length s.now) (take code_length t.now) }
{
    s[..CODE_LENGTH] == t[..CODE_LENGTH]
}

// The characters of the first code are exactly those wanted.
fn is_spelled(s: &[u8], wanted: &[u8]) -> bool
    requires { code_length ≤ length s.now }
    ensures { result ≡ same_code wanted.now (characters (take code_length s.now)) }
{
    let n = wanted.len();
    if CODE_LENGTH < n {
        return false;
    }
    for j in 0..n {
        if s[j] == 0 || wanted[j] != s[j] {
            return false;
        }
    }
    n == CODE_LENGTH || s[n] == 0
}

// Where the code with the characters wanted stands among n codes, counted from 0.
pub fn find(s: &[u8], n: usize, wanted: &[u8]) -> Option<usize>
    requires { code_length * n ≤ length s.now }
    ensures { given result ≡ option_of_code wanted.now 0 (pieces code_length n s.now) }
{
    for i in 0..n {
        if is_spelled(&s[CODE_LENGTH * i..], wanted) {
            return Some(i);
        }
    }
    None
}
