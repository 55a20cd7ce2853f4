// What the programs that play the models' vectors make of numbers: numbers out of a vector's head, how much of a buffer
// is lent, and an answer in numbers.
//
// Every function takes any numbers and any bytes.
#![tactic(auto)]

ghost use Rattle.std.specs.Prelude.{◌≡◌, ◌+◌, ◌-◌, ◌*◌};
ghost use Rattle.numbers.specs.Numbers.{pair_of, quad_of, lent_of, told_of};

use refusal::Refusal;

// What a call with an output answered, in numbers: the refusal and the line that it names, or 0, and the bytes put out.
#[derive(Clone, Copy)]
pub struct Numbers {
    pub number: usize,
    pub line: usize,
    pub count: usize,
}

// The number in two bytes from place `at` on, low byte first; a byte past the end counts as 0.
pub fn pair(bytes: &[u8], at: u8) -> u16
    ensures { result ≡ pair_of bytes.now at }
{
    u16::from_le_bytes(buffer::bytes_at(bytes, usize::from(at)))
}

// The number in four bytes, likewise.
pub fn quad(bytes: &[u8], at: u8) -> u32
    ensures { result ≡ quad_of bytes.now at }
{
    u32::from_le_bytes(buffer::bytes_at(bytes, usize::from(at)))
}

// How much of a buffer is lent: its right length, a byte less, a byte more, or nothing.
pub fn lent(code: u8, right: u16) -> usize
    ensures { result ≡ lent_of code right }
{
    match code {
        0 => usize::from(right),
        1 => usize::from(right).saturating_sub(1),
        2 => usize::from(right) + 1,
        _ => 0,
    }
}

// An answer in numbers.
pub fn told(done: Result<usize, Refusal>) -> Numbers
    ensures { result ≡ told_of done }
{
    match done {
        Ok(count) => Numbers {
            number: 0,
            line: 0,
            count,
        },
        Err(why) => Numbers {
            number: why.number() as usize,
            line: why.line(),
            count: 0,
        },
    }
}
