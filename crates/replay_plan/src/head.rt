// A vector: 48 bytes, numbers low byte first.
use buffer::byte_at;
use numbers::{pair, quad};

pub const SIZE: usize = 48;

// The kind of image whose bytes look random; the other is a ramp.
const SCATTERED: u8 = 1;

// Where the card stands.
pub const CARD: usize = 16;

// A vector taken apart: the lengths, and what image and output buffer are made of. Of a scattered image all bytes are
// scattered, of another none.
#[derive(Clone, Copy)]
pub struct Vector {
    pub seed: u8,
    pub image: usize,
    pub first: u8,
    pub factor: u8,
    pub scattered: usize,
    pub start: u32,
    pub room: usize,
    pub card_end: usize,
}

impl Vector {
    pub(crate) fn of(head: &[u8]) -> Vector {
        let image = pair(head, 2) as usize;
        let scattered = if byte_at(head, 0) == SCATTERED {
            image
        } else {
            0
        };
        Vector {
            seed: byte_at(head, 1),
            image,
            first: byte_at(head, 4),
            factor: byte_at(head, 5),
            scattered,
            start: quad(head, 4),
            room: pair(head, 8) as usize,
            card_end: CARD + byte_at(head, 10) as usize,
        }
    }
}
