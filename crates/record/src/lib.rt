// One line of Intel HEX: how long it is, if it is no bad record, and its record's bytes; and the line of a record,
// written.
#![tactic(auto)]

ghost use Rattle.std.specs.Prelude.{◌≡◌, ◌+◌, ◌-◌, ◌*◌, ◌%◌, ◌<◌, ◌≤◌, length, unwrap_or, IfSome};
ghost use Rattle.laws.specs.Bytes.{put};
ghost use Rattle.record.specs.Record.{suits, sum_of, sound, record_of, record_line};
ghost use Rattle.record.specs.Ways.{line_end, spelled_length, record_line_length, record_laid};

// The bytes of a record in front of its data, those beside them, and all bytes of the longest record.
const HEAD: usize = 4;

pub const FRAME: usize = HEAD + 1;

pub const ROOM: usize = FRAME + 255;

// The types that are read: bytes, and no enum, since they are compared with a byte of the record and written as one.
pub const DATA: u8 = 0;

pub const END: u8 = 1;

pub const UPPER: u8 = 4;

pub const START: u8 = 5;

// The data bytes of those that are not data.
pub const END_BYTES: u8 = 0;

pub const UPPER_BYTES: u8 = 2;

pub const START_BYTES: u8 = 4;

// How long the line of a record without data is, as it is written.
pub const LINE: usize = 2 + FRAME * 2;

// Where the digits of a record without data end, in its line.
pub const SHORTEST: usize = 1 + FRAME * 2;

// Where the line ends whose digits end at place `end`, if LF or CR LF stands there.
#[tactic(auto, unfolding(crate::specs::Ways::line_end))]
fn line_end(rest: &[u8], end: usize) -> Option<usize>
    requires { end < length rest.now }
    ensures length { unwrap_or result 0 ≡ line_end rest.now end }
    ensures some { IfSome result (λ n. 0 < n) }
{
    match rest[end] {
        b'\n' => Some(end + 1),
        b'\r' if buffer::byte_at(rest, end + 1) == b'\n' => Some(end + 2),
        _ => None,
    }
}

// How long the line at the front of `rest` is, if it spells a record.
#[tactic(auto, using(crate::proofs::Spelling::no_mark))]
fn spelled_length(rest: &[u8]) -> Option<usize>
    ensures length { unwrap_or result 0 ≡ spelled_length rest.now }
    ensures some { IfSome result (λ n. 0 < n) }
{
    if rest.len() <= SHORTEST {
        return None;
    }
    if rest[0] != b':' {
        return None;
    }
    // whether these are digits is seen with all others, once it is known where they end
    let end = SHORTEST + digit::told(rest[1], rest[2]) * 2;
    if rest.len() <= end {
        return None;
    }
    if !hexfield::digits(&rest[1..end]) {
        return None;
    }
    line_end(rest, end)
}

// All bytes added up, modulo 256.
fn sum(bytes: &[u8]) -> u8
    ensures { result ≡ sum_of bytes.now % 256 }
{
    bytes.iter().fold(0u8, |sum, byte| sum.wrapping_add(*byte))
}

// Two bytes as a number, the high one first.
pub fn word(high: u8, low: u8) -> u16
    ensures { result ≡ high * 256 + low }
{
    u16::from_be_bytes([high, low])
}

// Is there no more than the type asks for? Length and offset are all that it says. Data come first: nearly all records
// are.
#[tactic(auto, unfolding(crate::specs::Record::suits))]
fn suits(kind: u8, bytes: u8, offset: u16) -> bool
    ensures { result ≡ suits kind bytes offset }
{
    if kind == DATA {
        return true;
    }
    if offset != 0 {
        return false;
    }
    match kind {
        END => bytes == END_BYTES,
        UPPER => bytes == UPPER_BYTES,
        START => bytes == START_BYTES,
        _ => false,
    }
}

// Has the record a type that is read, as it should be, and the right sum?
fn sound(bytes: &[u8]) -> bool
    requires { 4 ≤ length bytes.now }
    ensures { result ≡ sound bytes.now }
{
    suits(bytes[3], bytes[0], word(bytes[1], bytes[2])) && sum(bytes) == 0
}

// The record at the front of `rest` goes to the front of `out`, if the line spells one. Gives the line's length, or
// None for a bad record.
pub fn read(rest: &[u8], out: &mut [u8]) -> Option<usize>
    requires { 260 ≤ length out.old }
    ensures length { unwrap_or result 0 ≡ record_line_length rest.now }
    ensures some { IfSome result (λ n. (0 < n) × (n ≤ length rest.now)) }
    ensures laid { out.new ≡ record_laid rest.now out.old }
{
    let length = spelled_length(rest)?;
    // beside the digits there are two bytes, the mark and LF, or three with CR
    let count = (length - 2) / 2;
    hexfield::decode(&rest[1..1 + count * 2], out, 0);
    sound(&out[..count]).then_some(length)
}

// The byte that makes a sum 0, modulo 256.
fn complement(sum: u8) -> u8
    ensures { result ≡ (256 - sum) % 256 }
{
    sum.wrapping_neg()
}

// Writes the line of a record into `out` from place `at` on.
fn spell(bytes: &[u8], out: &mut [u8], at: usize)
    requires { at + (2 + length bytes.now * 2) ≤ length out.old }
    ensures { out.new ≡ put at (record_line bytes.now) out.old }
{
    let end = at + 1 + bytes.len() * 2;
    out[at] = b':';
    hexfield::encode(bytes, out, at + 1);
    out[end] = b'\n';
}

// Writes the line of a record of this type, offset and data into `out` from place `at` on, and gives its length.
pub fn write(kind: u8, offset: u16, data: &[u8], out: &mut [u8], at: usize) -> usize
    requires { (length «data».now < 256) × (at + length (record_line (record_of kind offset «data».now)) ≤ length out.old) }
    ensures { (out.new ≡ put at (record_line (record_of kind offset «data».now)) out.old) × (result ≡ length (record_line (record_of kind offset «data».now))) }
{
    let [high, low] = offset.to_be_bytes();
    let head = [data.len() as u8, high, low, kind];
    let end = HEAD + data.len();
    let mut bytes = [0u8; ROOM];
    buffer::put(&mut bytes, 0, &head);
    buffer::put(&mut bytes, HEAD, data);
    bytes[end] = complement(sum(&bytes[..end]));
    spell(&bytes[..end + 1], out, at);
    end * 2 + 4
}
