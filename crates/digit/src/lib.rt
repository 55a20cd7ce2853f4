// One hexadecimal digit: is a byte one, in either case, what it is worth, and the capital that is written.
#![tactic(auto)]

ghost use Rattle.std.specs.Prelude.{◌≡◌, ◌<◌, ltb};
ghost use Rattle.digit.specs.Digit.{value_of, digit_of, byte_of};

// The digit of the low half of a byte.
#[tactic(auto, using(crate::proofs::Values::digit_low, crate::proofs::Values::digit_high))]
pub fn of(byte: u8) -> u8
    ensures { result ≡ digit_of byte }
{
    let n = byte % 16;
    if n < 10 { b'0' + n } else { b'A' + (n - 10) }
}

// Is this byte a digit?
#[tactic(auto, using(crate::proofs::Values::digit_told))]
pub fn is_digit(byte: u8) -> bool
    ensures { result ≡ ltb (value_of byte) 16 }
{
    byte.is_ascii_hexdigit()
}

// The value of a digit, without a test: letters have bit 6 set, and lie 9 past their low half. Of a byte that is none,
// some number.
#[tactic(auto, using(crate::proofs::Values::half_value))]
fn half(digit: u8) -> u8
    ensures { (result < 64) × (value_of digit < 16 → result ≡ value_of digit) }
{
    digit % 16 + digit / 64 * 9
}

fn nibble(digit: u8) -> u8
    requires { value_of digit < 16 }
    ensures { (result ≡ value_of digit) × (result < 16) }
{
    half(digit)
}

// What two bytes spell, if they are digits; else some number. For a caller who tests them later, with others.
#[tactic(auto, unfolding(crate::specs::Digit::byte_of))]
pub fn told(high: u8, low: u8) -> usize
    ensures { (result < 2048) × ((value_of high < 16) × (value_of low < 16) → result ≡ byte_of high low) }
{
    usize::from(half(high)) * 16 + usize::from(half(low))
}

// The byte that two digits spell.
#[tactic(auto, unfolding(crate::specs::Digit::byte_of))]
pub fn byte(high: u8, low: u8) -> u8
    requires { (value_of high < 16) × (value_of low < 16) }
    ensures { result ≡ byte_of high low }
{
    nibble(high) * 16 + nibble(low)
}
