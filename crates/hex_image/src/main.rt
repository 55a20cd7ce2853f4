// Writes the image that image.hex gives, a text in Intel HEX, to standard output. An argument, if given, is the path of
// the text, whatever its name ends in. A refusal goes to standard error, and nothing to standard output then.
#![tactic(auto)]

use board::Board;
use files::{Stream, System, Wanted};
use refusal::Refusal;
use telling::Much;
use verdict::Verdict;

// The arguments of a call that names the file: the program's own name is the first.
const NAMED: usize = 2;

fn tell(rt: &impl System, words: &[u8]) {
    files::say(rt, Stream::Err, words, &[]);
}

// The image is bytes, which a shell cannot hold: whoever runs this program cannot see for us whether they arrived.
fn put(rt: &impl System, image: &[u8]) {
    if rt.put(Stream::Out, image).is_err() {
        tell(
            rt,
            b"The image could not be written to standard output. Make room for it, then try again.\n",
        );
    }
}

fn make(rt: &impl System) {
    let mut image = [0u8; Board::LOGGER_FLASH];
    let file = Wanted {
        argument: 1,
        what: b"HEX text",
        name: b"image.hex",
        all: b"the HEX text",
    };
    if let Ok(count) = images::hex(rt, Stream::Err, Much::Words, file, &mut image) {
        put(rt, &image[0..count]);
    }
}

fn main(rt: HostRuntime) {
    if files::arguments(&rt) <= NAMED {
        make(&rt);
        return;
    }
    telling::line(&rt, Stream::Err, Verdict::Refused(Refusal::File));
    tell(
        &rt,
        b"Name one file, the HEX text, or none to take image.hex in this folder.\n",
    );
}
