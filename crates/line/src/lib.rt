// One line of a job text: how long it is, if it is well formed, and the line of a request, written.
#![tactic(auto)]

ghost use Rattle.std.specs.Prelude.{◌≡◌, true, ◌+◌, ◌*◌, ◌≤◌, ◌<◌, length, get_or, unwrap_or, IfSome};
ghost use Rattle.laws.specs.Bytes.{put};
ghost use Rattle.request.specs.Setup.{setup_of, data_length};
ghost use Rattle.digit.specs.Digit.{value_of, byte_of};
ghost use Rattle.hexfield.specs.Hex.{all_digits, bytes_of};
ghost use Rattle.line.specs.Event.{request, line_of};
ghost use Rattle.line.specs.Ways.{line_length};

use request::Setup;

// The places in a request's line: its setup, the tab behind it, its data; and the length of a line without data.
pub const SETUP: usize = 2;

pub const TAB: usize = 18;

pub const DATA: usize = 19;

pub const SHORTEST: usize = 20;

// The bytes of a setup.
const SETUP_BYTES: usize = 8;

// The two bytes that four digits spell, low byte first.
fn word(a: u8, b: u8, c: u8, d: u8) -> u16
    requires { (value_of a < 16) × (value_of b < 16) × (value_of c < 16) × (value_of d < 16) }
    ensures { result ≡ byte_of a b + byte_of c d * 256 }
{
    u16::from_le_bytes([digit::byte(a, b), digit::byte(c, d)])
}

// How many bytes of data follow the setup that 16 digits spell. The digits of the length are read only where the kind
// takes data.
#[tactic(auto, using(hexfield::proofs::Fields::digit_at))]
fn data_length(field: &[u8]) -> usize
    requires { (length field.now ≡ 16) × (all_digits field.now ≡ true) }
    ensures { result ≡ data_length (setup_of (bytes_of field.now)) }
{
    let kind = digit::byte(field[0], field[1]);
    if asking(kind, 1).data_length() == 0 {
        return 0;
    }
    asking(kind, word(field[12], field[13], field[14], field[15])).data_length()
}

// A setup of this kind and length: how many data follow depends on nothing else.
fn asking(kind: u8, length: u16) -> Setup
    ensures { result ≡ record { kind = kind; code = 0; value = 0; index = 0; length = length } }
{
    Setup {
        kind,
        code: 0,
        value: 0,
        index: 0,
        length,
    }
}

// How long the request's line at the front of `rest` is, if it is well-formed.
#[tactic(auto, using(crate::proofs::LineLength::no_end))]
fn request_length(rest: &[u8]) -> Option<usize>
    requires { get_or rest.now 0 0 ≡ 81 }
    ensures length { unwrap_or result 0 ≡ line_length rest.now }
    ensures some { IfSome result (λ n. 0 < n) }
{
    if rest.len() < SHORTEST {
        return None;
    }
    if rest[1] != b'\t' {
        return None;
    }
    if rest[TAB] != b'\t' {
        return None;
    }
    if !hexfield::digits(&rest[SETUP..TAB]) {
        return None;
    }
    let count = data_length(&rest[SETUP..TAB]);
    if (rest.len() - SHORTEST) / 2 < count {
        return None;
    }
    let end = DATA + count * 2;
    if rest[end] != b'\n' {
        return None;
    }
    hexfield::digits(&rest[DATA..end]).then_some(end + 1)
}

// How long the line at the front of `rest` is, if it is well-formed.
#[tactic(auto, using(crate::proofs::LineLength::attach_line, crate::proofs::LineLength::no_attach, crate::proofs::LineLength::other_kind, crate::proofs::LineLength::too_few, crate::proofs::LineLength::length_within))]
pub fn line_length(rest: &[u8]) -> Option<usize>
    ensures length { unwrap_or result 0 ≡ line_length rest.now }
    ensures some { IfSome result (λ n. (0 < n) × (n ≤ length rest.now)) }
{
    match rest {
        [b'A', b'\n', ..] => Some(2),
        [b'Q', ..] => request_length(rest),
        _ => None,
    }
}

// Writes the line of a request into `out` from place `at` on, and gives its length.
#[tactic(auto, using(crate::proofs::SpellLine::line_length_of, std::proofs::lemmas::Grind::common_steps))]
pub fn write_request(bytes: &[u8], out: &mut [u8], at: usize) -> usize
    requires { (8 ≤ length bytes.now) × (at + length (line_of (request bytes.now)) ≤ length out.old) }
    ensures { (out.new ≡ put at (line_of (request bytes.now)) out.old) × (result ≡ length (line_of (request bytes.now))) }
{
    let digits = (bytes.len() - SETUP_BYTES) * 2;
    out[at] = b'Q';
    out[at + 1] = b'\t';
    hexfield::encode(&bytes[..SETUP_BYTES], out, at + SETUP);
    out[at + TAB] = b'\t';
    hexfield::encode(&bytes[SETUP_BYTES..], out, at + DATA);
    out[at + DATA + digits] = b'\n';
    SHORTEST + digits
}
