// The vectors about a text and its bytes: a head of 16 bytes, numbers low byte first, and a body behind it.
ghost use Rattle.std.specs.Prelude.{◌≡◌, ◌%◌, get_or};
ghost use Rattle.numbers.specs.Numbers.{pair_of, quad_of};

use crate::Feed;
use buffer::byte_at;
use numbers::{pair, quad};

// What a vector is about: bytes that are read from a text, a text that is written from bytes, or a text that is looked
// at as well; a kind that no vector has counts as bytes to read.
#[derive(Clone, Copy, PartialEq, Eq)]
pub enum Kind {
    Read,
    Write,
    Text,
    Other,
}

impl From<u8> for Kind {
    fn from(code: u8) -> Kind {
        match code {
            0 => Kind::Read,
            1 => Kind::Write,
            2 => Kind::Text,
            _ => Kind::Other,
        }
    }
}

// A head taken apart: what is called, and what the input and the buffer are made of.
#[derive(Clone, Copy)]
pub struct Vector {
    pub kind: Kind,
    pub seed: u8,
    pub body: usize,
    pub size: usize,
    pub room: usize,
    pub place: usize,
    pub byte: u8,
}

impl Vector {
    // The bytes of a head.
    pub const HEAD: usize = 16;

    // A head taken apart.
    pub fn of(head: &[u8]) -> Vector
        ensures bytes { (result.seed ≡ get_or head.now 1 0) × (result.byte ≡ get_or head.now 15 0) }
        ensures lengths { (result.body ≡ pair_of head.now 2) × (result.size ≡ quad_of head.now 4) × (result.room ≡ quad_of head.now 8) }
        ensures place { result.place ≡ quad_of head.now 12 % 0x100_0000 }
    {
        Vector {
            kind: Kind::from(byte_at(head, 0)),
            seed: byte_at(head, 1),
            body: pair(head, 2) as usize,
            size: quad(head, 4) as usize,
            room: quad(head, 8) as usize,
            place: (quad(head, 12) % 0x100_0000) as usize,
            byte: byte_at(head, 15),
        }
    }

    // Makes the input: the body over and over, with one byte of its own. Without a body the input stays as it is.
    pub fn lay(self, file: &mut Feed, input: &mut [u8]) {
        crate::load(file, input, 0, self.body);
        vectors::repeat(input, 0, self.body, 0, self.size);
        vectors::ramp(input, self.place, 1, self.byte, 0);
    }
}
