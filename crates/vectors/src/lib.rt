// What the programs that play the models' vectors make of buffers: bytes made by a rule, texts in other letters, and
// digests.
//
// Every function takes any numbers and any buffers; what finds no room is left out.
#![tactic(auto)]

ghost use Rattle.std.specs.Prelude.{◌≡◌, true};
ghost use Rattle.vectors.specs.Vectors.{ramped_of, room_for, left, repeats_of, repeated_of, mix_of, mixed_of, small_of, small_at, letter_of, respelled_of};

// Digests are below this number, the largest prime that four bytes hold.
const MODULUS: usize = 4294967291;

// `count` bytes from place `at` on, as far as the buffer goes: the seed, then each by the step more than the one
// before, modulo 256.
#[tactic(auto, using(crate::proofs::Made::ramp_end, crate::proofs::Made::ramp_laid))]
pub fn ramp(out: &mut [u8], at: usize, count: usize, seed: u8, step: u8)
    ensures { out.new ≡ ramped_of at count seed step out.old }
{
    let end = count.min(out.len().saturating_sub(at));
    let mut byte = seed;
    for i in 0..end {
        out[at + i] = byte;
        byte = byte.wrapping_add(step);
    }
}

// Is there room for `count` bytes from place `at` on?
#[tactic(auto, unfolding(crate::specs::Vectors::room_for))]
fn fits(size: usize, at: usize, count: usize) -> bool
    ensures { result ≡ room_for size at count }
{
    at <= size && count <= size - at
}

// Is there a period, and room for it and for the bytes?
#[tactic(auto, unfolding(crate::specs::Vectors::repeats_of))]
fn repeats(size: usize, from: usize, period: usize, at: usize, count: usize) -> bool
    ensures { result ≡ repeats_of size from period at count }
{
    0 < period && fits(size, from, period) && fits(size, at, count)
}

// `count` bytes from place `at` on become those of the period that begins at place `from`, over and over; gives the
// place behind them. Without room nothing changes.
#[tactic(auto, using(crate::proofs::Made::again_end, crate::proofs::Made::repeats_told), unfolding(crate::specs::Vectors::repeated_of))]
pub fn repeat(buffer: &mut [u8], from: usize, period: usize, at: usize, count: usize) -> usize
    ensures { left result buffer.new ≡ repeated_of from period at count buffer.old }
{
    if !repeats(buffer.len(), from, period, at, count) {
        return at;
    }
    for i in 0..count {
        buffer[at + i] = buffer[from + i % period];
    }
    at + count
}

// A digest with one more number in it.
fn step(digest: usize, number: usize) -> usize
    ensures { result ≡ mix_of digest number }
{
    (digest % MODULUS * 257 + number % MODULUS + 1) % MODULUS
}

// A digest with more numbers in it.
#[tactic(auto, using(crate::proofs::Made::mixed_folded, std::proofs::lemmas::Grind::common_steps))]
pub fn mix(digest: usize, numbers: &[usize]) -> usize
    ensures { result ≡ mixed_of digest numbers.now }
{
    numbers
        .iter()
        .fold(digest, |mixed, number| step(mixed, *number))
}

// The digest of some bytes.
#[tactic(auto, using(crate::proofs::Made::mixed_folded, std::proofs::lemmas::Grind::common_steps))]
pub fn digest(bytes: &[u8]) -> usize
    ensures { result ≡ mixed_of 1 bytes.now }
{
    bytes
        .iter()
        .fold(1, |mixed, byte| step(mixed, usize::from(*byte)))
}

// The small letter of a capital among A to F; any other byte stays.
#[tactic(auto, unfolding(crate::specs::Vectors::small_of))]
fn small(byte: u8) -> u8
    ensures { result ≡ small_of byte }
{
    match byte {
        b'A'..=b'F' => byte.to_ascii_lowercase(),
        _ => byte,
    }
}

// Does a letter at this place become small?
#[tactic(auto, unfolding(crate::specs::Vectors::small_at))]
fn small_at(mixed: bool, place: usize) -> bool
    ensures { result ≡ small_at mixed place }
{
    !mixed || place % 2 == 1
}

// A byte in these letters; the first one of a line stays.
#[tactic(auto, unfolding(crate::specs::Vectors::letter_of))]
fn letter(first: bool, is_small: bool, byte: u8) -> u8
    ensures { result ≡ letter_of first is_small byte }
{
    if is_small && !first {
        small(byte)
    } else {
        byte
    }
}

// A text in small letters, or in mixed ones: of the letters of hex digits, A to F, those at odd places become small. The
// first byte of each line stays.
#[tactic(auto, using(crate::proofs::Letters::respelled_end))]
pub fn respell(text: &mut [u8], mixed: bool)
    ensures { text.new ≡ respelled_of mixed 0 true text.old }
{
    let mut first = true;
    for i in 0..text.len() {
        let byte = text[i];
        text[i] = letter(first, small_at(mixed, i), byte);
        first = byte == b'\n';
    }
}
