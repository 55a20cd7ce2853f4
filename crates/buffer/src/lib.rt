// Actions on lent bytes: read one, lay some over others, fill a part; and how far to go in them.
#![tactic(auto)]

ghost use Rattle.std.specs.Prelude.{◌≡◌, ◌+◌, ◌-◌, ◌≤◌, length, get_or, slice_index, ℕ, ◌<◌};
ghost use Rattle.laws.specs.Bytes.{put, filled};
ghost use Rattle.buffer.specs.Least.{least_of};

// The smaller of two.
pub fn least(a: usize, b: usize) -> usize
    ensures { (result ≡ least_of a b) × (result ≤ a) × (result ≤ b) }
{
    a.min(b)
}

// The byte at a place, or 0 past the end.
pub fn byte_at(bytes: &[u8], at: usize) -> u8
    ensures { result ≡ get_or bytes.now at 0 }
{
    bytes.get(at).copied().unwrap_or(0)
}

// As many bytes as the array has, from a place on, 0 for each past the end. Where the sum would be too large a number,
// the largest is past the end too.
pub fn bytes_at<const N: usize>(bytes: &[u8], at: usize) -> [u8; N]
    ensures { (k : ℕ) → k < N → slice_index result k ≡ get_or bytes.now (at + k) 0 }
{
    let mut these = [0; N];
    for k in 0..N {
        these[k] = byte_at(bytes, at.saturating_add(k));
    }
    these
}

// The bytes of `source` go over those of `buffer` from place `at` on.
#[tactic(auto, unfolding(laws::specs::Bytes::put))]
pub fn put(buffer: &mut [u8], at: usize, source: &[u8])
    requires { at + length source.now ≤ length buffer.old }
    ensures { buffer.new ≡ put at source.now buffer.old }
{
    buffer[at..at + source.len()].copy_from_slice(source);
}

// The bytes of `buffer` from place `from` up to place `to` become `byte`.
#[tactic(auto, unfolding(laws::specs::Bytes::put, laws::specs::Bytes::filled))]
pub fn fill(buffer: &mut [u8], from: usize, to: usize, byte: u8)
    requires { (from ≤ to) × (to ≤ length buffer.old) }
    ensures { buffer.new ≡ filled from (to - from) byte buffer.old }
{
    buffer[from..to].fill(byte);
}
