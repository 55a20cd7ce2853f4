// Hexadecimal: a field of digits, both ways. Digits are read in either case and written as capitals.
#![tactic(auto)]

ghost use Rattle.std.specs.Prelude.{◌≡◌, true, ◌+◌, ◌*◌, ◌/◌, ◌≤◌, length};
ghost use Rattle.laws.specs.Bytes.{put};
ghost use Rattle.hexfield.specs.Hex.{all_digits, bytes_of, hex_of};

// Are all bytes of a short field digits? One at a time.
fn few_digits(field: &[u8]) -> bool
    ensures { result ≡ all_digits field.now }
{
    field.iter().all(|byte| digit::is_digit(*byte))
}

// Are sixteen bytes digits? No branch leaves the loop and its count is fixed, so that the compiler takes all sixteen at
// once.
fn sixteen_digits(field: &[u8; 16]) -> bool
    ensures { result ≡ all_digits field.now }
{
    let mut all = true;
    for byte in field {
        all &= digit::is_digit(*byte);
    }
    all
}

// Are all bytes of the field digits? Sixteen at a time: the last sixteen may begin among those that were looked at
// before, so that none are left over.
pub fn digits(field: &[u8]) -> bool
    ensures { result ≡ all_digits field.now }
{
    let Some(last) = field.last_chunk::<16>() else {
        return few_digits(field);
    };
    let (others, _) = field[..field.len() - 1].as_chunks::<16>();
    others.iter().all(sixteen_digits) && sixteen_digits(last)
}

// The bytes that a short field spells go over those of `out` from place `at` on, one at a time; a last digit without
// its second is left out.
fn decode_few(field: &[u8], out: &mut [u8], at: usize)
    requires { (at + length field.now / 2 ≤ length out.old) × (all_digits field.now ≡ true) }
    ensures { out.new ≡ put at (bytes_of field.now) out.old }
{
    let (pairs, _) = field.as_chunks::<2>();
    for (i, &[high, low]) in pairs.iter().enumerate() {
        out[at + i] = digit::byte(high, low);
    }
}

// The bytes that sixteen digits spell. They are written out and given by value, so that the compiler takes all of them
// at once.
#[tactic(auto, using(crate::proofs::Fields::digit_at))]
fn eight(field: &[u8; 16]) -> [u8; 8]
    requires { all_digits field.now ≡ true }
    ensures { result ≡ bytes_of field.now }
{
    [
        digit::byte(field[0], field[1]),
        digit::byte(field[2], field[3]),
        digit::byte(field[4], field[5]),
        digit::byte(field[6], field[7]),
        digit::byte(field[8], field[9]),
        digit::byte(field[10], field[11]),
        digit::byte(field[12], field[13]),
        digit::byte(field[14], field[15]),
    ]
}

// Eight bytes go over those of `out` from place `at` on.
#[tactic(auto, unfolding(laws::specs::Bytes::put))]
fn lay(bytes: [u8; 8], out: &mut [u8], at: usize)
    requires { at + 8 ≤ length out.old }
    ensures { out.new ≡ put at bytes out.old }
{
    out[at..at + 8].copy_from_slice(&bytes);
}

// The bytes that the field spells go over those of `out` from place `at` on; a last digit without its second is left
// out. Eight at a time: the last eight may begin among those that were laid before, so that none are left over.
pub fn decode(field: &[u8], out: &mut [u8], at: usize)
    requires { (at + length field.now / 2 ≤ length out.old) × (all_digits field.now ≡ true) }
    ensures { out.new ≡ put at (bytes_of field.now) out.old }
{
    let count = field.len() / 2;
    let Some(last) = field[..count * 2].last_chunk::<16>() else {
        return decode_few(field, out, at);
    };
    let (others, _) = field[..count * 2 - 2].as_chunks::<16>();
    for (i, sixteen) in others.iter().enumerate() {
        lay(eight(sixteen), out, at + i * 8);
    }
    lay(eight(last), out, at + count - 8);
}

// The field that spells the bytes goes over the bytes of `out` from place `at` on.
pub fn encode(bytes: &[u8], out: &mut [u8], at: usize)
    requires { at + length bytes.now * 2 ≤ length out.old }
    ensures { out.new ≡ put at (hex_of bytes.now) out.old }
{
    for (i, &x) in bytes.iter().enumerate() {
        out[at + i * 2] = digit::of(x / 16);
        out[at + i * 2 + 1] = digit::of(x);
    }
}
