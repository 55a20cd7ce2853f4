// Words for a HEX text that is refused: what is wrong in which line, and what to do.
//
// The line is looked at anew, once the text is known to be refused: a person waits then, and the reader does not have
// to carry what only a sentence needs. What is said is put out, and no contract can say more of it.
#![tactic(auto)]

mod bad;
mod fields;
mod given;
mod lines;

ghost use Rattle.std.specs.Prelude.{◌≤◌};

use crate::given::Span;
use board::Board;
use files::{Stream, System};
use refusal::Refusal;

// The most bytes of a text that the programs read. An image of all of the logger's flash has 245,811 with one byte in a
// record, CR LF at each end and a start address; the linker's records of 16 bytes make it 45,084.
pub const MOST: usize = 262144;

// The addresses of the logger's flash.
fn flash() -> Span
    ensures { 1 ≤ result.to }
{
    let from = Board::LOGGER.flash_first() as usize;
    Span {
        from,
        to: from + Board::LOGGER.flash_bytes(),
    }
}

// The first address from `from` on that is not in flash.
fn first_outside(flash: Span, from: usize) -> usize {
    if from < flash.from {
        return from;
    }
    if from < flash.to { flash.to } else { from }
}

fn outside(rt: &impl System, text: &[u8], line: usize) {
    let flash = flash();
    files::say(
        rt,
        Stream::Err,
        b"Line # of the HEX text gives a byte at @, and flash is @ to @. Link the program for flash, then write its HEX anew.\n",
        &[
            line,
            first_outside(flash, given::addresses(text, line).from),
            flash.from,
            flash.to - 1,
        ],
    );
}

fn twice(rt: &impl System, text: &[u8], line: usize) {
    let first = given::before(text, line);
    files::say(
        rt,
        Stream::Err,
        b"Line # of the HEX text gives the byte at @ again, which line # has given. Take out what is there twice: two files that were joined, or sections that overlap in the linker's script.\n",
        &[line, first.address, first.line],
    );
}

// Why a text has no end: it has no line, none of its lines is an end record, or there is one and a line behind it.
fn unended(rt: &impl System, text: &[u8], line: usize) {
    let words: &[u8] = if text.is_empty() {
        b"The HEX text is empty. Give the HEX of the linked program.\n"
    } else if lines::from(text, line).is_empty() {
        b"The HEX text stops before line #, without an end record, which is :00000001FF. Get the file again, for it may have been cut, or write it anew.\n"
    } else {
        b"Line # of the HEX text stands behind the end record. Take out what follows that record; where two files were joined, give one of them.\n"
    };
    files::say(rt, Stream::Err, words, &[line]);
}

fn empty(rt: &impl System, line: usize) {
    files::say(
        rt,
        Stream::Err,
        b"The HEX text ends in line # and gives no data. Give the HEX of the linked program.\n",
        &[line],
    );
}

// Says on standard error why a HEX text is refused so, and what to do.
pub fn explain(rt: &impl System, why: Refusal, text: &[u8]) {
    match why {
        Refusal::Record(line) => bad::tell(rt, text, line),
        Refusal::Outside => outside(rt, text, ihex::faulty_line(text)),
        Refusal::Twice => twice(rt, text, ihex::faulty_line(text)),
        Refusal::Unended => unended(rt, text, ihex::faulty_line(text)),
        Refusal::Empty => empty(rt, ihex::faulty_line(text)),
        Refusal::File => files::say(
            rt,
            Stream::Err,
            b"The HEX text has more than # bytes, which no image needs. Give the HEX of one program.\n",
            &[MOST],
        ),
        _ => files::say(rt, Stream::Err, b"The image has no room here.\n", &[]),
    }
}
