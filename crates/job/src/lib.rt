// The reader of a job: its text, measured, and read into packed events.
#![tactic(auto)]

ghost use Rattle.std.specs.Prelude.{◌≡◌, true, ◌+◌, ◌≤◌, length, get_or};
ghost use Rattle.laws.specs.Bytes.{put};
ghost use Rattle.refusal.specs.Delivery.{in_numbers, delivery};
ghost use Rattle.laws.specs.Lines.{first_line};
ghost use Rattle.line.specs.Line.{event_of, well_spelled};
ghost use Rattle.text.specs.Text.{limit, first_bad, events_of};
ghost use Rattle.packed.specs.Packed.{pack_of, packed_of};
ghost use Rattle.job.specs.Ways.{packed_size};
ghost use Rattle.job.specs.Calls.{measure_of, read_of};

use refusal::Refusal;
use request::Setup;

// How many bytes the event of a line of this length takes when packed.
#[tactic(auto, unfolding(crate::specs::Ways::packed_size))]
fn packed_size(line: usize) -> usize
    requires { 1 ≤ line }
    ensures { (result ≡ packed_size line) × (result ≤ line) }
{
    if line < line::SHORTEST {
        return 1;
    }
    line / 2 - 1
}

// The first malformed line, or how many bytes the text's events take when packed: one pass, a line a turn.
fn scan(text: &[u8]) -> Result<usize, Refusal>
    requires { length text.now ≤ limit }
    ensures { result ≡ measure_of text.now }
{
    let mut at = 0;
    let mut number = 1;
    let mut size = 0;
    // how long a line is, only reading it tells, so no range counts the places
    while at < text.len() {
        let Some(line) = line::line_length(&text[at..]) else {
            return Err(Refusal::Line(number));
        };
        size += packed_size(line);
        number += 1;
        at += line;
    }
    Ok(size)
}

// How many bytes the text's events take when packed, or why the text is none.
#[tactic(auto, using(crate::proofs::Measuring::measure_long))]
pub fn measure(text: &[u8]) -> Result<usize, Refusal>
    ensures { in_numbers result ≡ in_numbers (measure_of text.now) }
{
    if text::LIMIT < text.len() {
        return Err(Refusal::Text);
    }
    scan(text)
}

// Packs the request at the front of `rest` into `out` from place `at` on, and gives the length of its line.
fn pack_request(rest: &[u8], out: &mut [u8], at: usize) -> usize
    requires { (well_spelled (first_line rest.now) ≡ true) × (get_or rest.now 0 0 ≡ 65 → ⊥) × (at + length (pack_of (event_of (first_line rest.now))) ≤ length out.old) }
    ensures { (out.new ≡ put at (pack_of (event_of (first_line rest.now))) out.old) × (result ≡ length (first_line rest.now)) }
{
    out[at] = 1;
    hexfield::decode(&rest[line::SETUP..line::TAB], out, at + 1);
    let count = Setup::of(&out[at + 1..at + packed::HEAD]).data_length();
    let end = line::DATA + count * 2;
    hexfield::decode(&rest[line::DATA..end], out, at + packed::HEAD);
    end + 1
}

// Packs the event at the front of `rest` into `out` from place `at` on, and gives the length of its line.
fn pack_line(rest: &[u8], out: &mut [u8], at: usize) -> usize
    requires { (well_spelled (first_line rest.now) ≡ true) × (at + length (pack_of (event_of (first_line rest.now))) ≤ length out.old) }
    ensures { (out.new ≡ put at (pack_of (event_of (first_line rest.now))) out.old) × (result ≡ length (first_line rest.now)) }
{
    if buffer::byte_at(rest, 0) == b'A' {
        out[at] = 0;
        return 2;
    }
    pack_request(rest, out, at)
}

// Packs the text's events into `out`.
fn pack(text: &[u8], out: &mut [u8])
    requires { (first_bad text.now ≡ 0) × (length (packed_of (events_of text.now)) ≤ length out.old) }
    ensures { out.new ≡ put 0 (packed_of (events_of text.now)) out.old }
{
    let mut from = 0;
    let mut to = 0;
    // as in `scan`
    while from < text.len() {
        let line = pack_line(&text[from..], out, to);
        to += packed_size(line);
        from += line;
    }
}

// Reads a text: its events go to the front of `out`, packed.
pub fn read(text: &[u8], out: &mut [u8]) -> Result<usize, Refusal>
    ensures { delivery result out.new ≡ read_of text.now out.old }
{
    let size = measure(text)?;
    if out.len() < size {
        return Err(Refusal::Output);
    }
    pack(text, out);
    Ok(size)
}
