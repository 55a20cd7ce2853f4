// The header of a job, and the head of a chunk of its text; numbers have their low byte first.
use buffer::byte_at;
use feed::Feed;
use numbers::pair;

pub const JOB: usize = 48;

pub const CHUNK: usize = 8;

// Where the card stands in a header.
pub const CARD: usize = 8;

// The right length of the checker's work area.
const WORK: u16 = marks::LOGGER_WORK as u16;

// A header taken apart: the lengths, and what image and work area are made of.
#[derive(Clone, Copy)]
pub struct Job {
    pub image: usize,
    pub factor: u8,
    pub seed: u8,
    pub work: usize,
    pub card_end: usize,
    pub work_seed: u8,
    pub work_step: u8,
}

// The head of a chunk, taken apart: how many bytes follow, how often the last literal comes again, or the part of a
// ramp that is spelled. The bytes of a ramp are modulo 256, so that the low byte of its start will do. A head of another
// kind has no bytes.
#[derive(Clone, Copy)]
pub enum Chunk {
    Literal(u16),
    Ramp {
        from: usize,
        to: usize,
        factor: u8,
        seed: u8,
    },
    Again(u16),
    Other,
}

// Reads a head, if there is another whose first byte is not 0: a 0 ends what the heads are of.
pub(crate) fn next(file: &mut Feed, head: &mut [u8]) -> bool {
    feed::next(file, head) & (byte_at(head, 0) != 0)
}

impl Job {
    pub(crate) fn of(header: &[u8]) -> Job {
        Job {
            image: pair(header, 2) as usize,
            factor: byte_at(header, 4),
            seed: byte_at(header, 5),
            work: numbers::lent(byte_at(header, 6), WORK),
            card_end: CARD + byte_at(header, 7) as usize,
            work_seed: byte_at(header, 40),
            work_step: byte_at(header, 41),
        }
    }
}

impl Chunk {
    pub(crate) fn of(head: &[u8]) -> Chunk {
        let count = pair(head, 2);
        let from = byte_at(head, 4) as usize;
        match byte_at(head, 0) {
            1 => Chunk::Literal(count),
            2 => Chunk::Ramp {
                from,
                to: from + count as usize,
                factor: byte_at(head, 6),
                seed: byte_at(head, 7),
            },
            3 => Chunk::Again(count),
            _ => Chunk::Other,
        }
    }
}
