// Hexadecimal, eight digits at a time: a number holds them as its eight bytes, and no sum crosses from one into the
// next.
#![tactic(auto)]

ghost use Rattle.std.specs.Prelude.{◌≡◌, true, map, ◌+◌, ◌*◌, length};
ghost use Rattle.digit.specs.Digit.{value_of};
ghost use Rattle.hexfield.specs.Hex.{all_digits, bytes_of};
ghost use Rattle.wide.specs.Wide.{joined_of};

// The values of eight digits, each in the byte of its digit.
fn values(field: &[u8; 8]) -> u64
    requires { all_digits field.now ≡ true }
    ensures { result ≡ joined_of (map value_of field.now) }
{
    let x = u64::from_le_bytes(*field);
    (x & 0x0F0F_0F0F_0F0F_0F0F) + ((x >> 6) & 0x0101_0101_0101_0101) * 9
}

// The four bytes that eight digits spell, all at once.
pub fn four(field: &[u8; 8]) -> [u8; 4]
    requires { all_digits field.now ≡ true }
    ensures { result ≡ bytes_of field.now }
{
    let v = values(field);
    let w = v * 16 + v / 256;
    let [first, _, second, _, third, _, fourth, _] = w.to_le_bytes();
    [first, second, third, fourth]
}
