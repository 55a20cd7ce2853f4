// The board that the vectors play on: its three buffers, of right or wrong length, and the device.
ghost use Rattle.std.specs.Prelude.{◌≤◌};

use crate::record;
use crate::record::Kind;
use board::Board;
use buffer::byte_at;
use device::Device;
use numbers::lent;
use request::Setup;
use vectors::ramp;

const MEMORY: u16 = Board::LOGGER_MEMORY as u16;

// The same as a number of bytes to paint, with its flash and its option bytes; a block or reply buffer with the byte
// that is too much.
const ALL: usize = Board::LOGGER_MEMORY;

const FLASH: usize = Board::LOGGER_FLASH;

const OPTIONS: usize = Board::OPTION_BYTES;

pub const OTHERS: usize = Setup::TRANSFER as usize + 1;

// What the step is lent: the device, a request of this length, and so much of each buffer; and the last record's kind.
#[derive(Clone, Copy)]
pub struct Lending {
    pub device: Device,
    pub kind: Kind,
    pub request: usize,
    pub memory: usize,
    pub block: usize,
    pub reply: usize,
}

// The same as places, which lie in the buffers.
#[derive(Clone, Copy)]
pub struct Ends {
    pub from: usize,
    pub to: usize,
    pub memory: usize,
    pub block: usize,
    pub reply: usize,
}

// What a record lays into the buffers: how many bytes of memory are mottled, how many are then the same, and which;
// whether there are option bytes; a byte at a place; how many bytes of block and reply buffer.
#[derive(Clone, Copy)]
struct Strokes {
    seed: u8,
    mottled: usize,
    plain: usize,
    byte: u8,
    has_options: bool,
    place: usize,
    poked: usize,
    poke: u8,
    others: usize,
}

pub(crate) fn ends_of(
    lending: Lending,
    tape: usize,
    memory: usize,
    block: usize,
    reply: usize,
) -> Ends
    ensures from_le_to { (result.from ≤ result.to) × (result.to ≤ tape) }
    ensures memory_le_memory { (result.memory ≤ memory) × (result.block ≤ block) × (result.reply ≤ reply) }
{
    let to = (record::SIZE + lending.request.min(record::LONGEST)).min(tape);
    Ends {
        from: record::SIZE.min(to),
        to,
        memory: lending.memory.min(memory),
        block: lending.block.min(block),
        reply: lending.reply.min(reply),
    }
}

pub(crate) fn empty() -> Lending {
    Lending {
        device: Device::start(Board::LOGGER),
        kind: Kind::Scene,
        request: 0,
        memory: 0,
        block: 0,
        reply: 0,
    }
}

// What is lent behind a record, from what was lent before it. Lengths are codes: right, a byte short, a byte long, or
// empty.
pub(crate) fn after(lending: Lending, tape: &[u8]) -> Lending {
    let kind = Kind::of(tape);
    match kind {
        Kind::Scene => Lending {
            memory: lent(byte_at(tape, 19), MEMORY),
            block: lent(byte_at(tape, 20), Setup::TRANSFER),
            reply: lent(byte_at(tape, 21), Setup::TRANSFER),
            ..empty()
        },
        Kind::Device => Lending {
            device: record::device(tape),
            kind,
            ..lending
        },
        _ => Lending {
            kind,
            request: record::length(kind, byte_at(tape, 9), numbers::pair(tape, 10)),
            ..lending
        },
    }
}

fn mixed(i: usize, seed: u8) -> u8
    requires { i ≤ 65535 }
{
    ((i * 7 + i / 256 + seed as usize) % 256) as u8
}

// Bytes that differ from place to place and from page to page.
fn mottle(memory: &mut [u8], count: usize, seed: u8) {
    for i in 0..count.min(memory.len()).min(65535) {
        memory[i] = mixed(i, seed);
    }
}

// The pattern of a scene: blank, all zeros, a mixture, or blank flash before the mixture.
fn pattern(code: u8, seed: u8) -> Strokes {
    let mixture = Strokes {
        seed,
        mottled: ALL,
        plain: 0,
        byte: 0xFF,
        has_options: true,
        place: ALL,
        poked: 1,
        poke: 0x77,
        others: OTHERS,
    };
    match code {
        0 => Strokes {
            plain: ALL,
            ..mixture
        },
        1 => Strokes {
            plain: ALL,
            byte: 0,
            ..mixture
        },
        2 => mixture,
        _ => Strokes {
            plain: FLASH,
            ..mixture
        },
    }
}

// Of all records only a scene and a poke change a buffer.
fn strokes_of(tape: &[u8]) -> Strokes {
    let none = Strokes {
        seed: 0,
        mottled: 0,
        plain: 0,
        byte: 0,
        has_options: false,
        place: numbers::quad(tape, 4) as usize,
        poked: 0,
        poke: byte_at(tape, 8),
        others: 0,
    };
    match Kind::of(tape) {
        Kind::Scene => pattern(byte_at(tape, 1), byte_at(tape, 2)),
        Kind::Poke => Strokes { poked: 1, ..none },
        _ => none,
    }
}

// The option bytes of a scene, where there is room for them.
fn lay_options(tape: &[u8], memory: &mut [u8]) {
    let from = Board::LOGGER.options_from();
    if let Some(options) = tape.get(3..3 + OPTIONS) {
        if from + OPTIONS <= memory.len() {
            buffer::put(memory, from, options);
        }
    }
}

// Lays into the buffers what the record asks for.
pub(crate) fn paint(tape: &[u8], memory: &mut [u8], block: &mut [u8], reply: &mut [u8]) {
    let strokes = strokes_of(tape);
    mottle(memory, strokes.mottled, strokes.seed);
    ramp(
        memory,
        Board::LOGGER.flash_from(),
        strokes.plain,
        strokes.byte,
        0,
    );
    if strokes.has_options {
        lay_options(tape, memory);
    }
    ramp(memory, strokes.place, strokes.poked, strokes.poke, 0);
    ramp(block, 0, strokes.others, strokes.seed, 3);
    ramp(reply, 0, strokes.others, strokes.seed, 5);
}
