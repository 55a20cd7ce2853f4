// An image from a file: its bytes as they stand there or, where the file's name says so, as Intel HEX.
//
// Which of the two it is, is decided by value. Only a file in Intel HEX costs room for its text, which is then read
// into the lent image.
#![tactic(auto)]

ghost use Rattle.std.specs.Prelude.{◌≡◌, ◌≤◌, length, Err, IfOk, IfErr};
ghost use Rattle.images.specs.Laid.{Laid};

use files::{Fault, Stream, System, Unread, Wanted};
use refusal::Refusal;
use telling::Much;
use verdict::Verdict;

// A byte more than a HEX text may have shows one that is too long.
const TEXT_ROOM: usize = hexwords::MOST + 1;

// Why there is no image: its file cannot be read, or its text in Intel HEX is refused. No byte of it counts.
#[derive(Clone, Copy)]
pub enum Unlaid {
    File(Unread),
    Text(Refusal),
}

// Is there no such file in the folder? No byte of it is read.
fn lacks(rt: &impl System, file: Wanted) -> bool {
    match files::read(rt, file, &mut [0u8; 0]) {
        Ok(_) => false,
        Err(unread) => unread.fault == Fault::Missing,
    }
}

// Does the argument name a file in Intel HEX? None does where there is no argument, or one that is too long for a path.
fn is_named_hex(rt: &impl System, argument: usize) -> bool {
    let mut path = [0u8; files::PATH];
    match files::argument(rt, argument, &mut path) {
        Some(length) => hexname::is_hex(&path[0..length]),
        None => false,
    }
}

// Without an argument for the image: does the folder have the text and not the image?
fn is_found_hex(rt: &impl System, text: Wanted, image: Wanted) -> bool {
    files::arguments(rt) <= image.argument && !lacks(rt, text) && lacks(rt, image)
}

// Refuses the text: the line goes to `to`, a sentence to standard error.
fn refuse(rt: &impl System, to: Stream, much: Much, why: Refusal, text: &[u8]) {
    if much != Much::Nothing {
        telling::line(rt, to, Verdict::Refused(why));
    }
    if much == Much::Words {
        hexwords::explain(rt, why, text);
    }
}

// The image that the text gives goes to the front of `image`; a text that is too long is refused.
fn read(text: &[u8], image: &mut [u8]) -> Result<usize, Refusal> {
    if hexwords::MOST < text.len() {
        return Err(Refusal::File);
    }
    ihex::read(text, image)
}

// Likewise, and a refusal is said.
fn lay(
    rt: &impl System,
    to: Stream,
    much: Much,
    text: &[u8],
    image: &mut [u8],
) -> Result<usize, Unlaid>
    ensures { Laid result image.old image.new }
{
    match read(text, image) {
        Ok(count) => Ok(count.min(image.len())),
        Err(why) => {
            refuse(rt, to, much, why, text);
            Err(Unlaid::Text(why))
        }
    }
}

// The image that a HEX text gives; where its file was not read, that.
fn from_text(
    rt: &impl System,
    to: Stream,
    much: Much,
    came: Result<usize, Unread>,
    text: &[u8],
    image: &mut [u8],
) -> Result<usize, Unlaid>
    requires { IfOk came (λ count. count ≤ length text.now) }
    ensures laid { Laid result image.old image.new }
    ensures unread { IfErr came (λ unread. result ≡ Err (Unlaid.File unread)) }
{
    match came {
        Ok(count) => lay(rt, to, much, &text[0..count], image),
        Err(unread) => Err(Unlaid::File(unread)),
    }
}

// Reads an image in Intel HEX, whatever the file's name says, or refuses and says as much as is asked for. `load` calls
// it from two places, so the compiler keeps it apart, and the stack of a caller grows by the text only in here.
pub fn hex(
    rt: &impl System,
    to: Stream,
    much: Much,
    file: Wanted,
    image: &mut [u8],
) -> Result<usize, Unlaid>
    ensures { Laid result image.old image.new }
{
    let mut text = [0u8; TEXT_ROOM];
    let came = telling::load(rt, to, much, file, &mut text);
    from_text(rt, to, much, came, &text, image)
}

// Reads an image, or refuses and says as much as is asked for. Without an argument, where the folder has image.hex and no
// image.bin, that is read.
pub fn load(
    rt: &impl System,
    to: Stream,
    much: Much,
    file: Wanted,
    image: &mut [u8],
) -> Result<usize, Unlaid>
    ensures { Laid result image.old image.new }
{
    let text = Wanted {
        argument: file.argument,
        what: b"image",
        name: b"image.hex",
        all: b"all files",
    };
    let bytes = Wanted {
        name: b"image.bin",
        ..text
    };
    if is_named_hex(rt, file.argument) {
        return hex(rt, to, much, file, image);
    }
    if is_found_hex(rt, text, bytes) {
        return hex(rt, to, much, text, image);
    }
    telling::load(rt, to, much, file, image).map_err(Unlaid::File)
}
