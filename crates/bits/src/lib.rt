// Bits kept eight to a byte, the lowest first: those of a part are set, and was one of them before?
#![tactic(auto)]

ghost use Rattle.std.specs.Prelude.{◌≡◌, ◌+◌, ◌-◌, ◌*◌, ◌≤◌, ◌<◌, length};
ghost use Rattle.bits.specs.Bits.{Takes};
ghost use Rattle.bits.specs.Ways.{stride_of, hit_of, marked_of};

// A whole byte where eight bits from its first on are left, else one bit.
#[tactic(auto, unfolding(crate::specs::Ways::stride_of))]
fn stride(i: usize, to: usize) -> usize
    requires { i < to }
    ensures { (result ≡ stride_of i to) × (1 ≤ result) × (i + result ≤ to) }
{
    if i % 8 == 0 && 8 <= to - i { 8 } else { 1 }
}

// Is one of these bits set in the byte that holds place i?
#[tactic(auto, unfolding(crate::specs::Ways::hit_of))]
fn hit(byte: u8, i: usize, stride: usize) -> bool
    ensures { result ≡ hit_of byte i stride }
{
    if stride == 8 {
        byte != 0
    } else {
        (byte >> (i % 8)) & 1 == 1
    }
}

// That byte with these bits set.
#[tactic(auto, using(crate::proofs::Ways::one_shifted), unfolding(crate::specs::Ways::marked_of))]
fn marked(byte: u8, i: usize, stride: usize) -> u8
    ensures { result ≡ marked_of byte i stride }
{
    if stride == 8 {
        255
    } else {
        byte | (1u8 << (i % 8))
    }
}

// All bits of the bytes from place `from` up to place `to` become set. Was none of them set before?
#[tactic(auto, using(crate::proofs::Ways::bytes_end))]
fn mark_bytes(bits: &mut [u8], from: usize, to: usize) -> bool
    requires { (from ≤ to) × (to ≤ length bits.old) }
    ensures { Takes (from * 8) (to * 8 - from * 8) bits.old bits.new result }
{
    let mut clear = true;
    for i in from..to {
        clear &= bits[i] == 0;
        bits[i] = 255;
    }
    clear
}

// The bits from place `from` up to place `to` become set, wherever these are in their bytes. Was none of them set
// before?
#[tactic(auto, using(crate::proofs::Ways::takes_end))]
fn mark_any(bits: &mut [u8], from: usize, to: usize) -> bool
    requires { (from ≤ to) × (to ≤ length bits.old * 8) }
    ensures { Takes from (to - from) bits.old bits.new result }
{
    let mut clear = true;
    let mut i = from;
    // Whole bytes at a time are quicker than a bit at a time, and no range takes such steps.
    while i < to {
        let count = stride(i, to);
        let byte = bits[i / 8];
        clear &= !hit(byte, i, count);
        bits[i / 8] = marked(byte, i, count);
        i += count;
    }
    clear
}

// The bits from place `from` up to place `to` become set. Was none of them set before? Nearly all parts are whole
// bytes, and these are quickly done.
#[tactic(auto, using(crate::proofs::Ways::takes_whole))]
pub fn mark(bits: &mut [u8], from: usize, to: usize) -> bool
    requires { (from ≤ to) × (to ≤ length bits.old * 8) }
    ensures { Takes from (to - from) bits.old bits.new result }
{
    if from % 8 == 0 && to % 8 == 0 {
        mark_bytes(bits, from / 8, to / 8)
    } else {
        mark_any(bits, from, to)
    }
}
