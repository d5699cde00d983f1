// Decimal numbers of any length, lent as their digits: compared digit by digit, and read as a number where they are known to fit.
#![tactic(auto)]

ghost use Rattle.std.specs.Prelude.{◌≡◌, true, ◌≤◌, ◌<◌, eqb, leb, length};
ghost use Rattle.model.specs.Base.{all};
ghost use Rattle.texts.specs.Decimals.{is_digit, is_decimal, number_in};

// Whether digits are a decimal: there is one, and no leading zero.
pub fn is_decimal(a: &[u8]) -> bool
    requires { all is_digit a.now ≡ true }
    ensures { result ≡ is_decimal a.now }
{
    match a {
        [] => false,
        [_] => true,
        [first, ..] => *first != b'0',
    }
}

// Whether a decimal is at most another: by the number of digits, then by the first digit that differs.
pub fn is_at_most(a: &[u8], b: &[u8]) -> bool
    requires { (is_decimal a.now ≡ true) × (is_decimal b.now ≡ true) }
    ensures { result ≡ leb (number_in a.now) (number_in b.now) }
{
    a.len() < b.len() || (a.len() == b.len() && a <= b)
}

// Whether digits spell a number: compared from the last one on, so that they may be as many as they like.
pub fn is_number(a: &[u8], n: usize) -> bool
    requires { all is_digit a.now ≡ true }
    ensures { result ≡ eqb n (number_in a.now) }
{
    let mut left = n;
    for i in (0..a.len()).rev() {
        if a[i] != b'0' + (left % 10) as u8 {
            return false;
        }
        left /= 10;
    }
    left == 0
}

// The number that digits spell, where it is below 1,000.
pub fn small_number(a: &[u8]) -> usize
    requires { (all is_digit a.now ≡ true) × (number_in a.now < 1000) }
    ensures { result ≡ number_in a.now }
{
    let mut n = 0;
    for digit in a {
        n = 10 * n + usize::from(*digit - b'0');
    }
    n
}
