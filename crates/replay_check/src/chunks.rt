// A job's text, made from its chunks in the file. What finds no room is left out, and the job's line then shows it.
ghost use Rattle.std.specs.Prelude.{◌≤◌, length};

use crate::head;
use crate::head::Chunk;
use feed::Feed;

// How long the text is by now, and where in it its last literal stands.
#[derive(Clone, Copy)]
struct Made {
    size: usize,
    at: usize,
    literal: u16,
}

// The digits of the bytes of a ramp from place `from` up to place `to` go behind the text; gives how long it is then.
fn spell(text: &mut [u8], size: usize, ramp: &[u8], from: usize, to: usize) -> usize {
    let Some(bytes) = ramp.get(from..to) else {
        return size;
    };
    if text.len() < size || (text.len() - size) / 2 < bytes.len() {
        return size;
    }
    hexfield::encode(bytes, text, size);
    size + bytes.len() * 2
}

// The chunk goes behind the text. A literal without bytes leaves the last one as it is.
fn add(file: &mut Feed, made: Made, chunk: Chunk, text: &mut [u8], ramp: &mut [u8]) -> Made {
    match chunk {
        Chunk::Literal(0) | Chunk::Other => made,
        Chunk::Literal(count) => Made {
            size: feed::load(file, text, made.size, count as usize),
            at: made.size,
            literal: count,
        },
        Chunk::Again(times) => {
            let period = made.literal as usize;
            let count = period.saturating_mul(times as usize);
            Made {
                size: vectors::repeat(text, made.at, period, made.size, count),
                ..made
            }
        }
        Chunk::Ramp {
            from,
            to,
            factor,
            seed,
        } => {
            vectors::ramp(ramp, 0, to, seed, factor);
            Made {
                size: spell(text, made.size, ramp, from, to),
                ..made
            }
        }
    }
}

// Reads the chunks of a text, makes it at the front of `text`, and gives how long it is.
pub(crate) fn read(file: &mut Feed, text: &mut [u8], ramp: &mut [u8]) -> usize
    ensures { result ≤ length text.new }
{
    let mut head = [0u8; head::CHUNK];
    let mut made = Made {
        size: 0,
        at: 0,
        literal: 0,
    };
    feed::turns(|| {
        let is_there = head::next(file, &mut head);
        if is_there {
            made = add(file, made, Chunk::of(&head), text, ramp);
        }
        is_there
    });
    made.size.min(text.len())
}
