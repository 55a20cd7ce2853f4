// Plays the job of job.txt on the board of board.bin, freshly attached, and prints a line for each
// event and then what differs from before. Arguments, if given, are the paths of the two files.
//
// model/play_vectors.py makes the sample and the text that this program has to print for it.
#![tactic(auto)]

mod change;
mod event;
mod play;
mod refuse;

use board::Board;
use files::{Stream, System, Wanted};
use refusal::Refusal;
use telling::Much;

// One byte more than a job and a board may have, so that a longer file shows as such.
const TEXT_ROOM: usize = text::LIMIT + 1;

const BOARD_ROOM: usize = Board::LOGGER_MEMORY + 1;

// A packed event has at most half the bytes of its line.
const PACKED_ROOM: usize = text::LIMIT / 2;

// The arguments of a call that names both files: the program's own name is the first.
const NAMED: usize = 3;

// Plays the events of a text on a board.
fn perform(rt: &impl System, text: &[u8], board: &[u8]) {
    let mut packed = [0u8; PACKED_ROOM];
    match job::read(text, &mut packed) {
        Ok(size) => if size <= packed.len() {
            play::play(rt, &packed[0..size], board);
        },
        Err(why) => refuse::say(
            rt,
            why,
            b"[The job has more than # bytes. Take out lines that it does not need.|Line # of the job is malformed. Correct it: a line is A, or Q, a tab, 16 digits, a tab and the data, with as many bytes as the setup asks for, in hexadecimal of either case, and ends with LF alone; A and Q are capitals.]\n",
            &[why.line(), text::LIMIT, why.line()],
        ),
    }
}

// Reads the board for a job's text, the last of the two.
fn load_board(rt: &impl System, text: &[u8]) {
    let mut board = [0u8; BOARD_ROOM];
    let file = Wanted {
        argument: 2,
        what: b"board",
        name: b"board.bin",
        all: b"job and board",
    };
    if let Ok(count) = telling::load(rt, Stream::Out, Much::Words, file, &mut board) {
        perform(rt, text, &board[0..count]);
    }
}

// Reads the job.
fn load_job(rt: &impl System) {
    let mut text = [0u8; TEXT_ROOM];
    let file = Wanted {
        argument: 1,
        what: b"job",
        name: b"job.txt",
        all: b"job and board",
    };
    if let Ok(count) = telling::load(rt, Stream::Out, Much::Words, file, &mut text) {
        load_board(rt, &text[0..count]);
    }
}

fn main(rt: HostRuntime) {
    if files::arguments(&rt) <= NAMED {
        load_job(&rt);
        return;
    }
    refuse::say(
        &rt,
        Refusal::File,
        b"Name two files, the job and the board, or none to take job.txt and board.bin in this folder.\n",
        &[],
    );
}
