// A verdict in words, on standard error. Where it is about what a job does, boards live through the job to tell why.
#![tactic(auto)]

ghost use Rattle.std.specs.Prelude.{◌≤◌};

use board::Board;
use device::{Device, Pending};
use files::System;
use reasons::ends::{Altered, Stopped};
use reasons::event::Failed;
use reasons::flash::{Found, Side};
use reasons::{ends, event, flash, refused};
use refusal::Refusal;
use verdict::Verdict;

// How many events come before the one in this line.
fn before(line: usize) -> usize {
    line.saturating_sub(1)
}

// The event that fails, and the board before it.
fn failed(rt: &impl System, line: usize, packed: &[u8], card: &[u8]) {
    let scene = trial::run(packed, before(line), card, 0, 0);
    let at = scene.at.min(packed.len());
    let asked = player::asks(&packed[at..]);
    event::fails(
        rt,
        Failed {
            line,
            device: scene.device,
            setup: asked.setup,
            spelled: asked.pending,
            left: scene.left,
            dirt: scene.dirt,
            is_protected: scene.is_protected,
        },
    );
}

// The end, and which option byte is not the card's.
fn ended(rt: &impl System, condition: u8, packed: &[u8], card: &[u8]) {
    let all = packed.len();
    let scene = trial::run(packed, all, card, 0, 0);
    let number = scene.altered.min(Board::OPTION_BYTES);
    let place = Board::LOGGER.options_from() + number;
    let option = trial::run(packed, all, card, 0, place);
    let cause = trial::run(packed, before(option.changed), card, 0, place);
    let found = Altered {
        number,
        byte: option.byte,
        wanted: buffer::byte_at(card, number),
        line: option.changed,
        is_protected: protection::locked(card, 0),
    };
    let stopped = Stopped {
        device: scene.device,
        count: scene.count,
        pointed: scene.pointed,
        left: scene.left,
    };
    ends::unmet(rt, condition, stopped, found, cause.device);
}

// The byte that belongs into flash at an offset, in the pages of the image.
fn wanted(offset: usize, image: &[u8]) -> u8 {
    image.get(offset).copied().unwrap_or(0xFF)
}

// Where an offset in this page lies.
fn side_of(offset: usize, page: usize, image: &[u8]) -> Side {
    if offset < image.len() {
        Side::Image
    } else if page < Board::LOGGER.pages_of(image) {
        Side::Behind
    } else {
        Side::Beyond
    }
}

// The place in memory of an offset in flash.
fn place_of(offset: usize) -> usize {
    Board::LOGGER.flash_from() + offset.min(Board::LOGGER.flash_bytes())
}

// Of the last two lines that changed a byte, the one that is at fault: the last or, behind the image, where that one
// wrote, the one before it, which erased. `last` is the device before the last one.
fn doer(side: Side, changed: usize, earlier: usize, last: Device) -> usize {
    match last.pending {
        Pending::Write { .. } if side == Side::Beyond => earlier,
        _ => changed,
    }
}

// A line, where there is one: 0 stands for none.
fn some_line(line: usize) -> Option<usize> {
    if line == 0 { None } else { Some(line) }
}

// The byte that differs, on two boards, and what did something to it.
fn differs(rt: &impl System, offset: usize, packed: &[u8], image: &[u8], card: &[u8]) {
    let all = packed.len();
    let board = Board::LOGGER;
    let place = place_of(offset);
    let page = board.page_at(place);
    let side = side_of(offset, page, image);
    let option = board.options_from() + protection::option_of(board, page);
    let zero = trial::run(packed, all, card, 0, place);
    let erased = trial::run(packed, all, card, 0xFF, place);
    let guard = trial::run(packed, all, card, 0, option);
    let last = trial::run(packed, before(zero.changed), card, 0, place);
    let line = doer(side, zero.changed, zero.earlier, last.device);
    let cause = trial::run(packed, before(line), card, 0, place);
    let found = Found {
        place,
        side,
        zero: zero.byte,
        erased: erased.byte,
        want: wanted(offset, image),
        is_locked: protection::write_protected(protection::word(board, card, 0), page),
        line: some_line(guard.changed),
    };
    flash::wrong(rt, found, line, cause.device);
}

// How many bytes of evidence there are.
fn size(evidence: Result<usize, Refusal>, room: usize) -> usize
    ensures { result ≤ room }
{
    evidence.unwrap_or(0).min(room)
}

// Says a verdict to people. At the front of `room` stands the evidence that was gathered for it: the job's events,
// packed.
pub fn explain(
    rt: &impl System,
    verdict: Verdict,
    evidence: Result<usize, Refusal>,
    room: &[u8],
    image: &[u8],
    card: &[u8],
) {
    let packed = &room[0..size(evidence, room.len())];
    match verdict {
        Verdict::Pass => refused::passed(rt, image.len()),
        Verdict::Refused(why) => refused::refuses(
            rt,
            why,
            image.len(),
            card.len(),
            plan::LOGGER_JOB,
        ),
        Verdict::Event(line) => failed(rt, line, packed, card),
        Verdict::End(condition) => ended(rt, condition, packed, card),
        Verdict::Flash(offset) => differs(rt, offset, packed, image, card),
    }
}
