// Replays the file vectors.bin through the crate ihex, and prints a line for each vector.
//
// model/ihex_vectors.py makes the file and the text that this program has to print, and says what both mean.
#![tactic(auto)]

use feed::{Feed, Kind, Vector};

// Room for the longest input and the longest buffer of a vector.
const INPUT_ROOM: usize = 46100;

const OUT_ROOM: usize = 46200;

// What the reader answered, the line at fault, and what it left in the whole buffer.
fn read(rt: &impl Print, text: &[u8], out: &mut [u8]) {
    let done = ihex::read(text, out);
    let told = numbers::told(done);
    let faulty = ihex::faulty_line(text);
    feed::print(
        rt,
        b"R # # # # #\n",
        &[
            told.number,
            told.line,
            told.count,
            faulty,
            vectors::digest(out),
        ],
    );
}

// What the writer answered, and what it left in the whole buffer.
fn write(rt: &impl Print, image: &[u8], out: &mut [u8]) {
    let done = ihex::write(image, out);
    let told = numbers::told(done);
    feed::print(
        rt,
        b"W # # # #\n",
        &[told.number, told.line, told.count, vectors::digest(out)],
    );
}

// The call that a vector is about.
fn perform(rt: &impl Print, kind: Kind, input: &[u8], out: &mut [u8]) {
    if kind == Kind::Write {
        write(rt, input, out);
    } else {
        read(rt, input, out);
    }
}

// Reads the next vector, if there is one, makes its input and its buffer, and lets it happen.
fn turn(rt: &impl Print, file: &mut Feed, input: &mut [u8], out: &mut [u8]) -> bool {
    let mut head = [0u8; Vector::HEAD];
    if !feed::next(file, &mut head) {
        return false;
    }
    let vector = Vector::of(&head);
    vector.lay(file, input);
    vectors::ramp(out, 0, vector.room, vector.seed, 7);
    feed::lend(
        input,
        vector.size,
        out,
        vector.room,
        |input, out| perform(rt, vector.kind, input, out),
    );
    true
}

fn main(rt: HostRuntime) {
    let mut input = [0u8; INPUT_ROOM];
    let mut out = [0u8; OUT_ROOM];
    let mut file = feed::open(&rt);
    let count = feed::turns(|| turn(&rt, &mut file, &mut input, &mut out));
    feed::finish(&rt, file, b"vectors #\n", count);
}
