// Which condition at the job's end fails, and what to do.
use crate::deed::Letter;
use crate::{deed, place, say};
use board::Board;
use device::Device;
use files::System;
use mode::Mode;

// The board after the job; how many lines the job has, the last of them that set the pointer, and the one by which the
// loader leaves.
#[derive(Clone, Copy)]
pub struct Stopped {
    pub device: Device,
    pub count: usize,
    pub pointed: usize,
    pub left: usize,
}

// The first option byte that is not the card's: its number, its value on the board and on the card, the last line that
// changed it, and whether the card is read-protected.
#[derive(Clone, Copy)]
pub struct Altered {
    pub number: usize,
    pub byte: u8,
    pub wanted: u8,
    pub line: usize,
    pub is_protected: bool,
}

// What is due before the job can end, in the order of the sentence's parts.
#[derive(Clone, Copy)]
enum Due {
    LastStatus,
    TwoStatus,
    OneStatus,
    Abort,
    Attach,
    Nothing,
}

impl Due {
    fn of(mode: Mode) -> Due {
        match mode {
            Mode::ManifestSync => Due::LastStatus,
            Mode::DownloadSync => Due::TwoStatus,
            Mode::DownloadBusy => Due::OneStatus,
            Mode::UploadIdle => Due::Abort,
            Mode::Rebooting => Due::Attach,
            _ => Due::Nothing,
        }
    }
}

// The loader has not left.
fn stayed(rt: &impl System, mode: Mode, count: usize) {
    let due = Due::of(mode) as usize;
    say::fill(
        rt,
        b"[The job has no line: the loader's state still is |After the job's last line (line #) the loader's state is ]",
        &[count, count],
    );
    say::mode(rt, mode);
    say::fill(
        rt,
        b", and the new program is not started. [Add the GETSTATUS with which the loader leaves.|Send the GETSTATUS that are due, and end|Send the GETSTATUS that is due, and end|Send ABORT, and end|Add a line A, for the board to be attached again, and end|End][| the job as a plan ends: set pointer to @, two GETSTATUS, DNLOAD of length 0, one GETSTATUS.]",
        &[due, due, Board::LOGGER.flash_first() as usize],
    );
}

// The loader leaves, by the DNLOAD of length 0 in line `left`, for another place than the flash's start, to which line
// `pointed` set the pointer.
fn astray(rt: &impl System, pointer: u32, pointed: usize, left: usize) {
    say::fill(rt, b"Line # of the job sets the pointer to ", &[pointed]);
    place::span(rt, pointer as u64, 1);
    say::fill(
        rt,
        b", where it still is when the job leaves, and the board would start its program from there. Set the pointer to @, with two GETSTATUS, before the DNLOAD of length 0 in line #.",
        &[Board::LOGGER.flash_first() as usize, left],
    );
}

// What to do about options that are not the card's, in the order of the sentence's parts.
#[derive(Clone, Copy)]
enum Cure {
    Lift,
    TakeOut,
    WriteBack,
}

impl Cure {
    // The cure where the options are other from byte `number` on. Where byte 0 is, and the card is not read-protected,
    // the job protects the board, which then takes no options back.
    fn of(number: usize, is_protected: bool) -> Cure {
        if is_protected {
            return Cure::Lift;
        }
        if number == 0 {
            Cure::TakeOut
        } else {
            Cure::WriteBack
        }
    }
}

// The options are not those of the card any more; the line runs on this device.
fn changed(rt: &impl System, found: Altered, device: Device) {
    deed::ran(rt, Letter::Capital, found.line, device);
    say::fill(
        rt,
        b", and option byte # is % then and not % as on the card. [The card is read-protected: lift that on the board first, which erases the flash, then check a job with no read unprotect with the card that the board has then.|That protects the board from reading. Take it out of the job.|Take it out of the job, or write the card's bytes back before the job leaves.]",
        &[
            found.number,
            found.byte as usize,
            found.wanted as usize,
            Cure::of(found.number, found.is_protected) as usize,
        ],
    );
}

// The condition that fails after the job; `before` is the board before the line that altered its options.
pub fn unmet(rt: &impl System, condition: u8, stopped: Stopped, found: Altered, before: Device) {
    let device = stopped.device;
    let mode = device.mode;
    match condition {
        1 => stayed(rt, mode, stopped.count),
        2 => astray(rt, device.pointer, stopped.pointed, stopped.left),
        _ => changed(rt, found, before),
    }
}
