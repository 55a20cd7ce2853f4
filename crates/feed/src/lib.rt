// The file of vectors, and the lines that are printed: what the programs that play vectors ask of the system.
//
// What the system reads and writes no contract can say: the gate compares what the programs print.
#![tactic(auto)]

mod vector;

ghost use Rattle.std.specs.Prelude.{◌≡◌, ◌<◌, ◌≤◌, length};
ghost use Rattle.feed.specs.Feed.{Loaded};

use std::fs::File;
use std::rt::Files;
pub use vector::{Kind, Vector};

// A proved loop has to end, and nothing says that a file does: more vectors than any file of ours has.
pub const MOST: usize = 1000000;

// Room for a line.
const LINE: usize = 256;

// The file of vectors; none where it cannot be read.
#[derive(Drop)]
pub struct Feed {
    file: Option<File>,
}

// Opens the file of vectors, or says that it cannot be read.
pub fn open(rt: &(impl Files<File = File> + Eprint)) -> Feed {
    match File::open(rt, "vectors.bin") {
        Ok(file) => Feed { file: Some(file) },
        Err(_) => {
            let _ = rt.eprint("The file vectors.bin cannot be read.\n");
            Feed { file: None }
        }
    }
}

fn full(feed: &mut Feed, out: &mut [u8]) -> usize
    ensures { result ≤ length out.new }
{
    match &mut feed.file {
        Some(file) => files::fill_front(file, out).count,
        None => 0,
    }
}

// Reads a whole head, if there is another.
pub fn next(feed: &mut Feed, head: &mut [u8]) -> bool {
    full(feed, head) == head.len()
}

// Takes turns until one finds nothing more, in the file or elsewhere; gives how many found something.
pub fn turns<F: FnMut() -> bool>(mut turn: F) -> usize
    requires { F.IsAlwaysCallable turn }
    ensures { result ≤ MOST }
{
    for count in 0..MOST {
        if !turn() {
            return count;
        }
    }
    MOST
}

// Reads `count` bytes of the file to place `at` of the buffer, and gives the place behind those that came. Without room
// nothing is read.
pub fn load(feed: &mut Feed, buffer: &mut [u8], at: usize, count: usize) -> usize
    ensures { Loaded at count result buffer.old buffer.new }
{
    if buffer.len() < at || buffer.len() - at < count {
        return at;
    }
    at + full(feed, &mut buffer[at..at + count])
}

// Lends the front of both buffers, in these lengths. What finds no room has no line.
pub fn lend<F: FnOnce(&mut [u8], &mut [u8])>(
    input: &mut [u8],
    size: usize,
    out: &mut [u8],
    room: usize,
    call: F,
)
    requires { F.IsAlwaysCallable call }
    ensures input_unlent { length input.old < size → input.new ≡ input.old }
    ensures out_unlent { length out.old < room → out.new ≡ out.old }
{
    if size <= input.len() && room <= out.len() {
        call(&mut input[0..size], &mut out[0..room]);
    }
}

// Prints what the template says with the numbers, all at once: a line of the output.
pub fn print(rt: &impl Print, template: &[u8], numbers: &[usize]) {
    let mut line = [0u8; LINE];
    let end = sentence::fill(template, numbers, b"", &mut line, 0);
    let _ = rt.write_all(&line[0..end.min(LINE)]);
}

// Prints the last line, how many vectors there were; nothing where there was no file.
pub fn finish(rt: &impl Print, feed: Feed, template: &[u8], count: usize) {
    if feed.file.is_some() {
        print(rt, template, &[count]);
    }
}
