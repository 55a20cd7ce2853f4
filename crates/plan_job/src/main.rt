// Writes the job that puts the image of image.bin on a board with the card of card.bin to standard
// output. Arguments, if given, are the paths of the two files. A refusal goes to standard error.
#![tactic(auto)]

mod refuse;

use board::Board;
use files::{Stream, System, Wanted};
use telling::Much;

// One byte more than an image and a card may have, so that a longer file shows as such.
const IMAGE_ROOM: usize = Board::LOGGER_FLASH + 1;

const CARD_ROOM: usize = Board::OPTION_BYTES + 1;

// The arguments of a call that names both files: the program's own name is the first.
const NAMED: usize = 3;

// Writes the job of an image for a card.
fn perform(rt: &impl System, image: &[u8], card: &[u8]) {
    let mut job = [0u8; plan::LOGGER_JOB];
    match plan::plan(image, card, &mut job) {
        Ok(size) => files::write(rt, Stream::Out, &job, size),
        Err(why) => refuse::plan(rt, why, image, card),
    }
}

// Reads the image for a board's card, the last of the two: a HEX text is refused only where both files could be read.
fn make(rt: &impl System, card: &[u8]) {
    let mut image = [0u8; IMAGE_ROOM];
    let file = Wanted {
        argument: 1,
        what: b"image",
        name: b"image.bin",
        all: b"image and card; an image in HEX is called image.hex there",
    };
    if let Ok(count) = images::load(rt, Stream::Err, Much::Words, file, &mut image) {
        perform(rt, &image[0..count], card);
    }
}

// Reads the card.
fn suit(rt: &impl System) {
    let mut card = [0u8; CARD_ROOM];
    let file = Wanted {
        argument: 2,
        what: b"card",
        name: b"card.bin",
        all: b"image and card",
    };
    if let Ok(count) = telling::load(rt, Stream::Err, Much::Words, file, &mut card) {
        make(rt, &card[0..count]);
    }
}

fn main(rt: HostRuntime) {
    if files::arguments(&rt) <= NAMED {
        suit(&rt);
        return;
    }
    refuse::arguments(&rt);
}
