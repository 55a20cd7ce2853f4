// Why an event fails, and what to do.
use crate::{deed, form, place, say};
use action::Action;
use board::{Board, Place};
use device::{Device, Pending};
use files::System;
use mode::Mode;
use request::{Request, Setup};

// An event that fails: its line, the board before it, its setup and the command that its data spells. Then, of that
// board: the line by which the loader has left, the place of the first byte in the way of a write, and read protection.
#[derive(Clone, Copy)]
pub struct Failed {
    pub line: usize,
    pub device: Device,
    pub setup: Setup,
    pub spelled: Pending,
    pub left: usize,
    pub dirt: usize,
    pub is_protected: bool,
}

// Why the device does not do what is asked, in the order of the parts of the sentence in `explain`.
#[derive(Clone, Copy)]
enum Cause {
    Left,
    Reboots,
    BlockOne,
    Unspelled,
    Protected,
    Options,
    Regions,
    OneByte,
    NoPage,
    Nowhere,
}

// What has to come before a request that the mode does not take, in the order of the parts of the sentence in `stalls`.
#[derive(Clone, Copy)]
enum Way {
    Status,
    StatusAgain,
    Before,
    Abort,
    Error,
}

// Why an event fails: a cause, flash that is not erased, a setup that has not the form of a request, or one that the
// mode does not take.
#[derive(Clone, Copy)]
enum Reason {
    For(Cause),
    Dirty,
    Misshaped,
    Untimely(Way),
}

impl Way {
    fn of(mode: Mode) -> Way {
        match mode {
            Mode::DownloadSync => Way::Status,
            Mode::DownloadBusy => Way::StatusAgain,
            Mode::ManifestSync => Way::Before,
            _ => Way::Abort,
        }
    }
}

// A request that the mode does not take.
fn untimely(request: Request, mode: Mode) -> Reason {
    match request {
        Request::Unknown => Reason::Misshaped,
        Request::ClearStatus => Reason::Untimely(Way::Error),
        _ => Reason::Untimely(Way::of(mode)),
    }
}

// What is wrong with where a block lies.
fn misplaced(pointer: u32, block: u16, count: u16) -> Cause {
    let from = access::block_address(block, pointer);
    match Board::LOGGER.place(from, count as u64) {
        Place::Outside => Cause::Regions,
        Place::Options(_) => Cause::Options,
        Place::Flash(_) | Place::Ram(_) => Cause::OneByte,
    }
}

// What is wrong with what a command aims at.
fn aimed(pointer: u32, pending: Pending) -> Cause {
    match pending {
        Pending::SetPointer(_) => Cause::Nowhere,
        Pending::Write { block, count } => misplaced(pointer, block, count),
        _ => Cause::NoPage,
    }
}

// The command that a GETSTATUS runs, by what the loader means to do. A command that it does not refuse by then is a
// write to flash.
fn status(device: Device, is_protected: bool) -> Reason {
    match action::intend(Board::LOGGER, is_protected, device) {
        Action::Fail(Device::VENDOR) => Reason::For(Cause::Protected),
        Action::Fail(_) => Reason::For(aimed(device.pointer, device.pending)),
        _ => Reason::Dirty,
    }
}

fn upload(pointer: u32, setup: Setup, is_protected: bool) -> Cause {
    if setup.value == 1 {
        return Cause::BlockOne;
    }
    if is_protected {
        return Cause::Protected;
    }
    misplaced(pointer, setup.value, setup.length)
}

// A request that the mode takes.
fn served(device: Device, setup: Setup, is_protected: bool) -> Reason {
    match setup.request() {
        Request::Download if setup.value == 1 => Reason::For(Cause::BlockOne),
        Request::Download => Reason::For(Cause::Unspelled),
        Request::Upload => Reason::For(upload(device.pointer, setup, is_protected)),
        _ => status(device, is_protected),
    }
}

// Why the device does not do what the setup asks for. One that has left or reboots answers nothing.
fn why(device: Device, setup: Setup, is_protected: bool) -> Reason {
    let request = setup.request();
    match device.mode {
        Mode::Left => Reason::For(Cause::Left),
        Mode::Rebooting => Reason::For(Cause::Reboots),
        mode if mode::allowed(request, mode) => served(device, setup, is_protected),
        mode => untimely(request, mode),
    }
}

fn stalls(rt: &impl System, mode: Mode, way: Way) {
    say::fill(rt, b"In ", &[]);
    say::mode(rt, mode);
    say::fill(
        rt,
        b" the loader stalls it. [A command waits then: send GETSTATUS first, which runs it.|Send GETSTATUS once more before it.|Put it before the DNLOAD of length 0, or take it out.|Send ABORT before it.|Only dfuERROR takes it, and no good job gets there: take it out.]",
        &[way as usize],
    );
}

// A write to flash that is not erased, first at this place of memory.
fn dirty(rt: &impl System, first: usize) {
    say::fill(rt, b"On some board the byte at ", &[]);
    place::byte(rt, first);
    say::fill(
        rt,
        b" is not erased by then, and the loader writes nothing and reports errWRITE. Erase page # in the lines before, and write no byte twice.",
        &[Board::LOGGER.page_at(first)],
    );
}

// The loader has left by line `left`, if that is the cause.
fn explain(rt: &impl System, cause: Cause, left: usize) {
    say::fill(
        rt,
        b"The [loader has left before this line and answers nothing. Take out the lines from here on or, where the job needs them, the DNLOAD of length 0 in line #.|board reboots before this line, for its options were written or its read protection was lifted, and answers nothing. Put a line A before this one.|loader stalls it, for blocks are numbered from 2 on. Correct wValue.|loader stalls it: with wValue 0 it takes 21 and four address bytes, 41 and four, 41 alone, or 92 alone. Correct the data, or write a block with wValue 2.|loader reports errVENDOR, for read protection is on (option byte 0 is not AA). Lift it on the board, which erases the flash, then check again with the card that the board has then.|loader reports errTARGET, for options are read and written all # at once, from @ on. Correct the pointer or the length.|loader reports errTARGET, for these bytes do not lie in one region. Correct the pointer, wValue or the length.|loader reports errTARGET, for flash and RAM are read and written two bytes at least. Ask for two, and pad a write with FF.|loader reports errTARGET, for only flash has pages. Correct the address.|loader reports errTARGET, for the address is in no region. Correct it.]",
        &[
            cause as usize,
            left,
            Board::OPTION_BYTES,
            Board::LOGGER.options_first() as usize,
        ],
    );
}

// The line of the event, its request, and the reason.
pub fn fails(rt: &impl System, failed: Failed) {
    let device = failed.device;
    let setup = failed.setup;
    say::fill(rt, b"Line # of the job is ", &[failed.line]);
    deed::describe(rt, device, setup, failed.spelled);
    say::fill(rt, b". ", &[]);
    match why(device, setup, failed.is_protected) {
        Reason::For(cause) => explain(rt, cause, failed.left),
        Reason::Dirty => dirty(rt, failed.dirt),
        Reason::Misshaped => form::correct(rt, setup),
        Reason::Untimely(way) => stalls(rt, device.mode, way),
    }
}
