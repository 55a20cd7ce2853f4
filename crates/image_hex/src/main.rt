// Writes the image of image.bin to standard output, as Intel HEX. An argument, if given, is the path of the image. A
// refusal goes to standard error, and nothing to standard output then.
#![tactic(auto)]

use board::Board;
use files::{Stream, System, Wanted};
use refusal::Refusal;
use telling::Much;
use verdict::Verdict;

// One byte more than an image may have, so that a longer file shows as such.
const IMAGE_ROOM: usize = Board::LOGGER_FLASH + 1;

// The arguments of a call that names the file: the program's own name is the first.
const NAMED: usize = 2;

// The line that names a refusal, and a sentence for people with its numbers.
fn refuse(rt: &impl System, why: Refusal, template: &[u8], numbers: &[usize]) {
    telling::line(rt, Stream::Err, Verdict::Refused(why));
    files::say(rt, Stream::Err, template, numbers);
}

// Writes the text of an image.
fn perform(rt: &impl System, image: &[u8]) {
    let mut text = [0u8; ihex::LONGEST];
    match ihex::write(image, &mut text) {
        Ok(size) => files::write(rt, Stream::Out, &text, size),
        Err(why) => refuse(
            rt,
            why,
            b"The image [is empty|has more bytes than the flash]. Give an image of 1 to # bytes.\n",
            &[image.len(), Board::LOGGER_FLASH],
        ),
    }
}

// Reads the image.
fn make(rt: &impl System) {
    let mut image = [0u8; IMAGE_ROOM];
    let file = Wanted {
        argument: 1,
        what: b"image",
        name: b"image.bin",
        all: b"the image",
    };
    if let Ok(count) = telling::load(rt, Stream::Err, Much::Words, file, &mut image) {
        perform(rt, &image[0..count]);
    }
}

fn main(rt: HostRuntime) {
    if files::arguments(&rt) <= NAMED {
        make(&rt);
        return;
    }
    refuse(
        &rt,
        Refusal::File,
        b"Name one file, the image, or none to take image.bin in this folder.\n",
        &[],
    );
}
