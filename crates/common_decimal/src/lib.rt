// Numbers in decimal digits, written at the start of a lent slice; what stands after them stays.
#![tactic(auto)]

ghost use Rattle.std.specs.Prelude.{◌≡◌, ◌≤◌, length};
ghost use Rattle.texts.specs.Decimals.{decimal};
ghost use Rattle.common_decimal.specs.Placed.{after, filled};

// The digits of a number, the last digit after those of a tenth of it.
pub fn put_decimal(n: u64, out: &mut [u8]) -> usize
    requires { length (decimal n) ≤ length out.old }
    ensures { after result out.new ≡ filled (decimal n) out.old }
{
    if n < 10 {
        out[0] = b'0' + n as u8;
        return 1;
    }
    let k = put_decimal(n / 10, out);
    out[k] = b'0' + (n % 10) as u8;
    k + 1
}
