// Bytes compared: are they all this one, are two lists the same, where do they first differ?
#![tactic(auto)]

ghost use Rattle.std.specs.Prelude.{◌≡◌, true, ◌-◌, ◌≤◌, length, drop};
ghost use Rattle.laws.specs.Lists.{same, all_are};
ghost use Rattle.compare.specs.Change.{first_change};

// Is each byte from place `from` up to place `to` this one? It looks at them all, so that many can be compared at a
// time: `all` would stop at the first that is another.
#[tactic(auto, using(crate::proofs::Alike::are_folded, std::proofs::lemmas::Grind::common_steps))]
pub fn all_are(bytes: &[u8], from: usize, to: usize, byte: u8) -> bool
    requires { (from ≤ to) × (to ≤ length bytes.now) }
    ensures { result ≡ all_are byte (to - from) (drop from bytes.now) }
{
    bytes[from..to]
        .iter()
        .fold(true, |alike, x| alike & (*x == byte))
}

// Are the bytes the same, one by one? The library compares many at a time.
#[tactic(auto, using(crate::proofs::Alike::same_is))]
pub fn same_bytes(these: &[u8], those: &[u8]) -> bool
    requires { length these.now ≡ length those.now }
    ensures { result ≡ same these.now those.now }
{
    these == those
}

// So many bytes are passed over at once where they are alike.
const PART: usize = 64;

// Are the two alike from place `from` up to `to`? Where one of them ends before, that is not said.
#[tactic(auto, using(crate::proofs::Change::part_alike))]
fn part_is_alike(old: &[u8], new: &[u8], from: usize, to: usize) -> bool
    ensures { result ≡ true → (from ≤ to) × (first_change old.now new.now (to - from) from ≡ to) }
{
    match (old.get(from..to), new.get(from..to)) {
        (Some(these), Some(those)) => same_bytes(these, those),
        _ => false,
    }
}

// The place up to which the two are alike, part by part, from place `from` on.
#[tactic(auto, using(crate::proofs::Change::part_passed))]
fn passed(old: &[u8], new: &[u8], from: usize, to: usize) -> usize
    ensures { (first_change old.now new.now (to - result) result ≡ first_change old.now new.now (to - from) from) × (from ≤ result) }
{
    let mut at = from;
    // a part that is not alike ends the way, so that no range counts the parts
    while at < to {
        let end = to.min(at.saturating_add(PART));
        if !part_is_alike(old, new, at, end) {
            return at;
        }
        at = end;
    }
    at
}

// The lowest place from `from` up to `to` where the two differ, or the first that is not below `to`. Bytes that are not
// there count as 0. Parts that are alike are passed over at once: byte by byte, `play_job` took up to three times as
// long.
#[tactic(auto, using(crate::proofs::Change::first_turn, crate::proofs::Change::first_stop, crate::proofs::Change::first_end))]
pub fn first_change(old: &[u8], new: &[u8], from: usize, to: usize) -> usize
    ensures { (result ≡ first_change old.now new.now (to - from) from) × (from ≤ result) }
{
    let near = passed(old, new, from, to);
    for i in near..to {
        if buffer::byte_at(old, i) != buffer::byte_at(new, i) {
            return i;
        }
    }
    near.max(to)
}
