// The records of the vector file, and what they say. A record stands in front of the tape, its request behind it.
use crate::codes;
use crate::codes::Spelled;
use buffer::byte_at;
use device::{Device, Pending};
use feed::Feed;
use loader::Event;
use numbers::{pair, quad};

pub const SIZE: usize = 48;

// The kinds of record, in the order of their numbers; a kind that no record has does nothing.
#[derive(Clone, Copy, PartialEq, Eq)]
pub enum Kind {
    Scene,
    Device,
    Attach,
    Request,
    Poke,
    Other,
}

impl From<u8> for Kind {
    fn from(code: u8) -> Kind {
        match code {
            0 => Kind::Scene,
            1 => Kind::Device,
            2 => Kind::Attach,
            3 => Kind::Request,
            4 => Kind::Poke,
            _ => Kind::Other,
        }
    }
}

impl Kind {
    pub(crate) fn of(tape: &[u8]) -> Kind {
        Kind::from(byte_at(tape, 0))
    }

    // The event that the record is, if it is one.
    pub(crate) fn event(self) -> Option<Event> {
        match self {
            Kind::Attach => Some(Event::Attach),
            Kind::Request => Some(Event::Request),
            _ => None,
        }
    }
}

// A request's setup, where data begin, and how long a request can be.
const SETUP: usize = 8;

const DATA_AT: usize = SIZE + SETUP;

pub const LONGEST: usize = SETUP + 4096;

// Whether another whole record was there. A request is spread out behind its record: the setup, and data that are made
// up or given.
pub(crate) fn next(file: &mut Feed, tape: &mut [u8]) -> bool {
    let end = feed::load(file, tape, 0, SIZE);
    let given = byte_at(tape, 12) as usize;
    let count = pair(tape, 10) as usize;
    let seed = byte_at(tape, 13);
    vectors::repeat(tape, 1, SETUP, SIZE, SETUP);
    vectors::ramp(tape, DATA_AT, count, seed, 11);
    vectors::repeat(tape, 16, given, DATA_AT, given);
    end == SIZE
}

pub(crate) fn device(tape: &[u8]) -> Device {
    let mode = codes::mode(byte_at(tape, 1));
    let pending = Pending::from(Spelled {
        kind: codes::Kind::from(byte_at(tape, 8)),
        address: quad(tape, 12),
        block: pair(tape, 16),
        count: pair(tape, 18),
    });
    Device {
        mode,
        status: byte_at(tape, 2),
        pointer: quad(tape, 4),
        pending,
    }
}

// How long a request is whose setup has `there` bytes and whose data `count`: for an attach there is none, and behind a
// short setup nothing follows.
pub(crate) fn length(kind: Kind, there: u8, count: u16) -> usize {
    match kind {
        Kind::Request if there < 8 => there as usize,
        Kind::Request => SETUP + count as usize,
        _ => 0,
    }
}
