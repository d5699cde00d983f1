// The codes of an imported book: the letter V and the number of each option.
#![tactic(auto)]

ghost use Rattle.std.specs.Prelude.{◌≡◌, ◌*◌, ◌≤◌, length, drop};
ghost use mathlib.Core.List.{◌++◌, flatten};
ghost use Rattle.model.specs.Limits.{code_length, most_options};
ghost use Rattle.texts.specs.ClauseBook.{code_of, codes_to};

use common_limits::CODE_LENGTH;

// The bytes of a code after its letter.
const DIGITS_LENGTH: usize = CODE_LENGTH - 1;

// The code of one option, at the start of a slice: zeros fill what its digits leave.
fn put_code(v: usize, out: &mut [u8])
    requires { (v ≤ most_options) × (code_length ≤ length out.old) }
    ensures { out.new ≡ code_of v ++ drop code_length out.old }
{
    let mut digits = [0u8; DIGITS_LENGTH];
    common_decimal::put_decimal(v as u64, &mut digits);
    out[0] = b'V';
    out[1..CODE_LENGTH].copy_from_slice(&digits);
}

// The codes of so many options, from 1 on.
pub fn put_codes(n: usize, out: &mut [u8])
    requires { (n ≤ most_options) × (code_length * n ≤ length out.old) }
    ensures { out.new ≡ flatten (codes_to n) ++ drop (code_length * n) out.old }
{
    for i in 0..n {
        put_code(i + 1, &mut out[CODE_LENGTH * i..]);
    }
}
