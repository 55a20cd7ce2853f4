// Replays the file vectors.bin through the plan writer, and prints a line for each vector.
//
// model/plan_vectors.py makes the file and the text that this program has to print, and says what both mean.
#![tactic(auto)]

mod head;

use feed::Feed;
use head::Vector;

// Room for the longest image and the longest buffer of a vector.
const IMAGE_ROOM: usize = 17408;

const OUT_ROOM: usize = 40000;

// The number after this one in a row that looks random.
fn after(number: u32) -> u32 {
    ((number as u64 * 48271 + 11) % 4294967291) as u32
}

// The first `count` bytes become the low bytes of the row that the seed begins.
fn scatter(out: &mut [u8], count: usize, seed: u32) {
    let mut number = seed;
    for byte in out.iter_mut().take(count) {
        number = after(number);
        *byte = (number % 256) as u8;
    }
}

// What the call answered, and what it left in the whole buffer.
fn perform(rt: &impl Print, image: &[u8], card: &[u8], out: &mut [u8]) {
    let done = plan::plan(image, card, out);
    let told = numbers::told(done);
    feed::print(
        rt,
        b"# # #\n",
        &[told.number, told.count, vectors::digest(out)],
    );
}

// Makes the image and the output buffer of a vector, and lets it happen; the head holds the card. What finds no room
// has no line.
fn play(rt: &impl Print, head: &[u8], image: &mut [u8], out: &mut [u8]) {
    let vector = Vector::of(head);
    vectors::ramp(image, 0, vector.image, vector.first, vector.factor);
    scatter(image, vector.scattered, vector.start);
    vectors::ramp(out, 0, vector.room, vector.seed, 7);
    if let Some(card) = head.get(head::CARD..vector.card_end) {
        feed::lend(
            image,
            vector.image,
            out,
            vector.room,
            |image, out| perform(rt, image, card, out),
        );
    }
}

// Plays the next vector, if there is one.
fn turn(rt: &impl Print, file: &mut Feed, image: &mut [u8], out: &mut [u8]) -> bool {
    let mut head = [0u8; head::SIZE];
    let is_there = feed::next(file, &mut head);
    if is_there {
        play(rt, &head, image, out);
    }
    is_there
}

fn main(rt: HostRuntime) {
    let mut image = [0u8; IMAGE_ROOM];
    let mut out = [0u8; OUT_ROOM];
    let mut file = feed::open(&rt);
    let count = feed::turns(|| turn(&rt, &mut file, &mut image, &mut out));
    feed::finish(&rt, file, b"vectors #\n", count);
}
