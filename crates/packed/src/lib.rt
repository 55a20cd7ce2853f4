// Packed events: how many bytes each takes, and a list of them written as a text.
#![tactic(auto)]

ghost use Rattle.std.specs.Prelude.{◌≡◌, true, ◌+◌, ◌*◌, ◌<◌, ◌≤◌, length, get_or, unwrap_or, IfSome};
ghost use Rattle.laws.specs.Bytes.{put};
ghost use Rattle.refusal.specs.Delivery.{delivery};
ghost use Rattle.line.specs.Event.{line_of};
ghost use Rattle.text.specs.Text.{limit, text_of};
ghost use Rattle.packed.specs.Packed.{event_in, well_packed, packs, unpacked};
ghost use Rattle.packed.specs.Ways.{piece_length, line_size, capped, size_of};
ghost use Rattle.packed.specs.Calls.{write_of};

use refusal::Refusal;
use request::Setup;

// The bytes of a packed request without data.
pub const HEAD: usize = 9;

// How many bytes the packed request at the front of `rest` takes, if it is whole.
fn request_piece(rest: &[u8]) -> Option<usize>
    requires { get_or rest.now 0 0 ≡ 1 }
    ensures length { unwrap_or result 0 ≡ piece_length rest.now }
    ensures some { IfSome result (λ n. (0 < n) × (n ≤ length rest.now)) }
{
    if rest.len() < HEAD {
        return None;
    }
    let count = Setup::of(&rest[1..]).data_length();
    if rest.len() - HEAD < count {
        return None;
    }
    Some(HEAD + count)
}

// How many bytes the packed event at the front of `rest` takes, if there is one, and it is whole.
#[tactic(auto, using(crate::proofs::PieceLength::no_piece, crate::proofs::PieceLength::attach_piece, crate::proofs::PieceLength::other_piece))]
pub fn piece_length(rest: &[u8]) -> Option<usize>
    ensures length { unwrap_or result 0 ≡ piece_length rest.now }
    ensures some { IfSome result (λ n. (0 < n) × (n ≤ length rest.now)) }
{
    match rest {
        [0, ..] => Some(1),
        [1, ..] => request_piece(rest),
        _ => None,
    }
}

// How long the line of an event of `piece` bytes is.
#[tactic(auto, unfolding(crate::specs::Ways::line_size))]
fn line_size(piece: usize) -> usize
    requires { piece ≤ limit }
    ensures { (result ≡ line_size piece) × (result ≤ limit * 2 + 2) }
{
    if piece < HEAD { 2 } else { piece * 2 + 2 }
}

// A text's length with one more line, that of an event of `piece` bytes; it stops just over the limit.
#[tactic(auto, using(crate::proofs::SpellSize::capped_piece), unfolding(crate::specs::Ways::capped))]
fn longer(size: usize, piece: usize) -> usize
    requires { size ≤ limit + 1 }
    ensures { (result ≡ capped (size + line_size piece)) × (result ≤ limit + 1) }
{
    if text::LIMIT < piece {
        return text::LIMIT + 1;
    }
    (size + line_size(piece)).min(text::LIMIT + 1)
}

// How long the text of a packed list is, or that it is no list of whole events.
fn spelled_size(packed: &[u8]) -> Result<usize, Refusal>
    ensures { result ≡ size_of packed.now }
{
    let mut rest = packed;
    let mut size = 0;
    while !rest.is_empty() {
        let Some(piece) = piece_length(rest) else {
            return Err(Refusal::Request);
        };
        size = longer(size, piece);
        rest = &rest[piece..];
    }
    Ok(size)
}

// Writes the line of a packed event into `out` from place `at` on, and gives its length.
fn write_piece(piece: &[u8], out: &mut [u8], at: usize) -> usize
    requires { (well_packed piece.now ≡ true) × (at + length (line_of (event_in piece.now)) ≤ length out.old) }
    ensures { (out.new ≡ put at (line_of (event_in piece.now)) out.old) × (result ≡ length (line_of (event_in piece.now))) }
{
    if buffer::byte_at(piece, 0) == 0 {
        out[at] = b'A';
        out[at + 1] = b'\n';
        return 2;
    }
    line::write_request(&piece[1..], out, at)
}

// Writes the text of a packed list of whole events into `out`.
fn spell(packed: &[u8], out: &mut [u8])
    requires { (packs packed.now ≡ true) × (length (text_of (unpacked packed.now)) ≤ length out.old) }
    ensures { out.new ≡ put 0 (text_of (unpacked packed.now)) out.old }
{
    let mut rest = packed;
    let mut to = 0;
    while let Some(count) = piece_length(rest) {
        let (piece, behind) = rest.split_at(count);
        to += write_piece(piece, out, to);
        rest = behind;
    }
}

// Writes a packed list's text to the front of `out`.
pub fn write(packed: &[u8], out: &mut [u8]) -> Result<usize, Refusal>
    ensures { delivery result out.new ≡ write_of packed.now out.old }
{
    let size = spelled_size(packed)?;
    if text::LIMIT < size {
        return Err(Refusal::Text);
    }
    if out.len() < size {
        return Err(Refusal::Output);
    }
    spell(packed, out);
    Ok(size)
}
