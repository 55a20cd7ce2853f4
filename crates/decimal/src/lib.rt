// Numbers in decimal, written into a lent buffer.
#![tactic(auto)]

ghost use Rattle.std.specs.Prelude.{◌≡◌, [], ◌∷◌, ◌++◌, ◌+◌, ◌%◌, ◌≤◌, ◌<◌, length};
ghost use Rattle.laws.specs.Bytes.{put};
ghost use Rattle.decimal.specs.Decimal.{decimal_of};

// How many digits a number has; zero has one.
#[tactic(auto, using(crate::proofs::Decimal::digits_told))]
pub fn digits(number: usize) -> usize
    ensures { (result ≡ length (decimal_of number)) × (result ≤ 20) }
{
    number.max(1).ilog10() as usize + 1
}

// The last digit of a number.
fn digit(number: usize) -> u8
    ensures { result ≡ 48 + number % 10 }
{
    b'0' + (number % 10) as u8
}

// Writes a number and the byte that ends its field into `out` from place `at` on, and gives the place behind them.
#[tactic(auto, using(crate::proofs::Decimal::digits_one, crate::proofs::Decimal::digits_more))]
pub fn write_field(number: usize, stop: u8, out: &mut [u8], at: usize) -> usize
    requires { at + length (decimal_of number) < length out.old }
    ensures { (out.new ≡ put at (decimal_of number ++ (stop ∷ [])) out.old) × (result ≡ at + length (decimal_of number) + 1) }
{
    let end = at + digits(number);
    out[end] = stop;
    let mut rest = number;
    for i in (at + 1..end).rev() {
        out[i] = digit(rest);
        rest /= 10;
    }
    out[at] = digit(rest);
    end + 1
}
