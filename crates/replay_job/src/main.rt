// Replays the file vectors.bin through the crates job and text, and prints a line for each call.
//
// model/job_vectors.py makes the file and the text that this program has to print, and says what both mean.
#![tactic(auto)]

mod walk;

use feed::{Feed, Kind, Vector};
use refusal::Refusal;

// Room for the longest text and the longest buffer of a vector.
const ROOM: usize = 61000;

// Which call it was, in the order of the line's letters.
#[derive(Clone, Copy)]
enum Asked {
    Read,
    Write,
    Text,
    Measure,
}

impl From<Kind> for Asked {
    fn from(kind: Kind) -> Asked {
        match kind {
            Kind::Read => Asked::Read,
            Kind::Write => Asked::Write,
            Kind::Text => Asked::Text,
            Kind::Other => Asked::Measure,
        }
    }
}

// What a call answered, and what it left in its buffer.
fn print(rt: &impl Print, asked: Asked, done: Result<usize, Refusal>, out: &[u8]) {
    let told = numbers::told(done);
    feed::print(
        rt,
        b"[R|W|R|M] # # # #\n",
        &[
            asked as usize,
            told.number,
            told.line,
            told.count,
            vectors::digest(out),
        ],
    );
}

// The call that a vector is about.
fn call(kind: Kind, input: &[u8], out: &mut [u8]) -> Result<usize, Refusal> {
    if kind == Kind::Write {
        return packed::write(input, out);
    }
    job::read(input, out)
}

// What else is asked of a text.
fn look(rt: &impl Print, kind: Kind, input: &[u8]) {
    if kind != Kind::Text {
        return;
    }
    let walk = walk::whole(input);
    feed::print(
        rt,
        b"K [0|1] # # #\n",
        &[
            usize::from(walk.is_bad),
            walk.events as usize,
            walk.at,
            walk.digest,
        ],
    );
    print(rt, Asked::Measure, job::measure(input), b"");
}

// The calls of one vector, on its input in one spelling.
fn perform(rt: &impl Print, vector: Vector, input: &[u8], out: &mut [u8]) {
    vectors::ramp(out, 0, vector.room, vector.seed, 7);
    let done = call(vector.kind, input, out);
    print(rt, Asked::from(vector.kind), done, out);
    look(rt, vector.kind, input);
}

// A text is played as given, in mixed letters and in small letters.
fn play(rt: &impl Print, vector: Vector, input: &mut [u8], out: &mut [u8]) {
    perform(rt, vector, input, out);
    if vector.kind == Kind::Write {
        return;
    }
    vectors::respell(input, true);
    perform(rt, vector, input, out);
    vectors::respell(input, false);
    perform(rt, vector, input, out);
}

// Reads the next vector, if there is one, makes its input, and lets it happen.
fn turn(rt: &impl Print, file: &mut Feed, text: &mut [u8], out: &mut [u8]) -> bool {
    let mut head = [0u8; Vector::HEAD];
    if !feed::next(file, &mut head) {
        return false;
    }
    let vector = Vector::of(&head);
    vector.lay(file, text);
    feed::lend(
        text,
        vector.size,
        out,
        vector.room,
        |text, out| play(rt, vector, text, out),
    );
    true
}

fn main(rt: HostRuntime) {
    let mut text = [0u8; ROOM];
    let mut out = [0u8; ROOM];
    let mut file = feed::open(&rt);
    let count = feed::turns(|| turn(&rt, &mut file, &mut text, &mut out));
    feed::finish(&rt, file, b"vectors #\n", count);
}
