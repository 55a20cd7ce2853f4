// Checks a job against an image and a card: one line on standard output says the verdict, and a sentence or two on
// standard error say it to people, unless the call asks for the line alone.
#![tactic(auto)]

use board::Board;
use files::{Stream, System, Unread, Wanted};
use refusal::Refusal;
use telling::Much;
use verdict::Verdict;

// A byte more than the longest job, image and card.
const JOB_ROOM: usize = text::LIMIT + 1;

const IMAGE_ROOM: usize = Board::LOGGER_FLASH + 1;

const CARD_ROOM: usize = Board::OPTION_BYTES + 1;

// The arguments of a call that names all three files: the program's own name is the first. With a word behind them
// there is one more, at this place.
const NAMED: usize = 4;

// The bytes of the word.
const WORD: usize = 5;

// How much is said of the next file: nothing, once the program has refused for one.
fn after(much: Much, came: Result<usize, Unread>) -> Much {
    if came.is_ok() { much } else { Much::Nothing }
}

fn judge(rt: &impl System, job: &[u8], image: &[u8], card: &[u8], is_quiet: bool) {
    let mut work = [0u8; marks::LOGGER_WORK];
    let verdict = checker::check(job, image, card, &mut work);
    telling::line(rt, Stream::Out, verdict);
    if is_quiet {
        return;
    }
    let gathered = telling::gather(verdict, job, &mut work);
    advice::explain(rt, verdict, gathered, &work, image, card);
    files::write(rt, Stream::Err, b"\n", 1);
}

// Reads the image, last of the three: a HEX text is refused only where every file could be read.
fn hold(rt: &impl System, job: &[u8], card: &[u8], much: Much) {
    let mut image = [0u8; IMAGE_ROOM];
    let file = Wanted {
        argument: 2,
        what: b"image",
        name: b"image.bin",
        all: b"job, image and card; an image in HEX is called image.hex there",
    };
    match images::load(rt, Stream::Out, much, file, &mut image) {
        Ok(count) if much != Much::Nothing => judge(
            rt,
            job,
            &image[0..count],
            card,
            much == Much::Line,
        ),
        _ => {}
    }
}

// Reads the card.
fn suit(rt: &impl System, job: &[u8], much: Much) {
    let mut card = [0u8; CARD_ROOM];
    let file = Wanted {
        argument: 3,
        what: b"card",
        name: b"card.bin",
        all: b"job, image and card",
    };
    let came = telling::load(rt, Stream::Out, much, file, &mut card);
    hold(rt, job, &card[0..came.unwrap_or(0)], after(much, came));
}

// Reads the job. All three files are asked for, whatever comes of one: a call without files then costs what a call
// costs beside its work, and the figures take it off.
fn check(rt: &impl System, much: Much) {
    let mut job = [0u8; JOB_ROOM];
    let file = Wanted {
        argument: 1,
        what: b"job",
        name: b"job.txt",
        all: b"job, image and card",
    };
    let came = telling::load(rt, Stream::Out, much, file, &mut job);
    suit(rt, &job[0..came.unwrap_or(0)], after(much, came));
}

// Is there one word behind the names, and is it `quiet`? A longer word has no room.
fn is_quiet(rt: &impl System, count: usize) -> bool {
    let mut word = [0u8; WORD];
    count == NAMED + 1 && files::argument(rt, NAMED, &mut word) == Some(WORD) && word == *b"quiet"
}

// How much the call asks for: words, where it names three files or none; the line, where it names three and adds the
// word; nothing, where it is no call that the program knows.
fn asked(rt: &impl System, count: usize) -> Much {
    match count {
        0 | 1 | NAMED => Much::Words,
        _ if is_quiet(rt, count) => Much::Line,
        _ => Much::Nothing,
    }
}

fn main(rt: HostRuntime) {
    let much = asked(&rt, files::arguments(&rt));
    if much != Much::Nothing {
        check(&rt, much);
        return;
    }
    telling::line(&rt, Stream::Out, Verdict::Refused(Refusal::File));
    files::say(
        &rt,
        Stream::Err,
        b"Name three files, the job, the image and the card, or none to take job.txt, image.bin and card.bin in this folder; behind three names, add the word quiet for the line alone.\n",
        &[],
    );
}
