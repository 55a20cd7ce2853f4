// Which flash byte is wrong after the job, and what to do.
//
// Two boards tell what the job does to a byte: one had flash all zero, one had it erased. Where they agree after the
// job, the job set the byte; where they do not, it left it as it was.
use crate::deed::Letter;
use crate::{deed, place, say};
use board::Board;
use device::{Device, Pending};
use files::System;

// Where a byte of flash lies: in the image, behind it in its last page, or in a page that the image does not reach.
#[derive(Clone, Copy, PartialEq, Eq)]
pub enum Side {
    Image,
    Behind,
    Beyond,
}

// A byte of flash after the job: its place in memory, and the side that it lies on; its value on either board, the one
// that it has to have, whether the card protects its page, and the last line that changed the option byte of its page,
// if one did.
#[derive(Clone, Copy)]
pub struct Found {
    pub place: usize,
    pub side: Side,
    pub zero: u8,
    pub erased: u8,
    pub want: u8,
    pub is_locked: bool,
    pub line: Option<usize>,
}

// Why the job leaves the byte as it was: the card protects its page, the job does not erase and write it, or it does so
// only while it has protected the page.
fn stuck(rt: &impl System, found: Found) {
    let page = Board::LOGGER.page_at(found.place);
    match found.line {
        _ if found.is_locked => say::fill(
            rt,
            b"page # is write-protected by the card (option byte #, bit #): the loader answers OK to every erase and write there and leaves the page as it is, so the old code would stay. Lift the write protection of page # on the board, then check again with the card that the board has then.",
            &[
                page,
                protection::option_of(Board::LOGGER, page),
                page % 8,
                page,
            ],
        ),
        None => say::fill(
            rt,
            b"the job leaves it as it was. Erase page # in the job, then write the image's bytes to it.",
            &[page],
        ),
        Some(line) => say::fill(
            rt,
            b"the job leaves it as it was. The job changes the write protection, last in line #: erase and write page # while it is not write-protected.",
            &[line, page],
        ),
    }
}

// What to do about what the job did to the byte: write it, write it otherwise, or spare a page behind the image; in the
// order of the sentence's parts.
#[derive(Clone, Copy)]
enum Advice {
    Write,
    Correct,
    ErasePages,
    Lift,
    TakeOut,
}

impl Advice {
    fn of(side: Side, zero: u8, pending: Pending) -> Advice {
        match pending {
            _ if side != Side::Beyond && zero == 0xFF => Advice::Write,
            _ if side != Side::Beyond => Advice::Correct,
            Pending::MassErase => Advice::ErasePages,
            Pending::ReadUnprotect => Advice::Lift,
            _ => Advice::TakeOut,
        }
    }
}

// What a line did to the byte on this device.
fn done(rt: &impl System, found: Found, line: usize, device: Device) {
    let advice = Advice::of(found.side, found.zero, device.pending);
    let want = found.want as usize;
    deed::ran(rt, Letter::Small, line, device);
    say::fill(
        rt,
        b"[, and no write of % to it runs after that. Write the image's bytes behind that line, each write with the GETSTATUS that runs it, or take the image that the job was made for.|, which leaves % there and not %. Correct the data or the address of the write, or take the image that the job was made for.|. In place of the mass erase, erase the image's pages one by one, and write to no other.|, which erases all flash of a read-protected board. Lift the read protection on the board first, then check a job with no read unprotect with the card that the board has then.|. Take that erase out of the job, and what it writes to this page.]",
        &[advice as usize, want, found.zero as usize, want],
    );
}

// The byte, and the line that did something to it, on this device.
pub fn wrong(rt: &impl System, found: Found, line: usize, device: Device) {
    say::fill(rt, b"The byte at ", &[]);
    place::byte(rt, found.place);
    say::fill(
        rt,
        b" [belongs to the image|lies behind the image in its last page and has to be erased|lies behind the image's last page and has to stay as it is], but ",
        &[found.side as usize],
    );
    if found.side == Side::Beyond || found.zero == found.erased {
        done(rt, found, line, device);
        return;
    }
    stuck(rt, found);
}
