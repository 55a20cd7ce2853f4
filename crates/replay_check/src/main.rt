// Replays the file vectors.bin through the job checker, and prints a line for each spelling of a job.
//
// model/check_vectors.py makes the file and the text that this program has to print; model/jobs.py says
// what both mean.
#![tactic(auto)]

mod chunks;
mod head;
mod output;

use feed::Feed;
use head::Job;

// Room for the longest text, image and work area of a job.
const TEXT_ROOM: usize = 61000;

const IMAGE_ROOM: usize = 17000;

const WORK_ROOM: usize = 39000;

fn judge(rt: &impl Print, text: &[u8], image: &[u8], card: &[u8], work: &mut [u8]) {
    let verdict = checker::check(text, image, card, work);
    output::print(rt, verdict, work);
}

// Makes the image and the work area of a job, and lets the checker judge; the header holds the card. What finds no room
// has no line.
fn prepare(rt: &impl Print, header: &[u8], text: &[u8], image: &mut [u8], work: &mut [u8]) {
    let job = Job::of(header);
    vectors::ramp(image, 0, job.image, job.seed, job.factor);
    vectors::ramp(work, 0, job.work, job.work_seed, job.work_step);
    if let Some(card) = header.get(head::CARD..job.card_end) {
        feed::lend(
            image,
            job.image,
            work,
            job.work,
            |image, work| judge(rt, text, image, card, work),
        );
    }
}

// The text is judged as given, in mixed letters and in small letters.
fn play(rt: &impl Print, header: &[u8], text: &mut [u8], image: &mut [u8], work: &mut [u8]) {
    prepare(rt, header, text, image, work);
    vectors::respell(text, true);
    prepare(rt, header, text, image, work);
    vectors::respell(text, false);
    prepare(rt, header, text, image, work);
}

// Reads the next job, if there is one, and plays it. A header that is no job's ends the file.
fn turn(
    rt: &impl Print,
    file: &mut Feed,
    text: &mut [u8],
    image: &mut [u8],
    work: &mut [u8],
) -> bool {
    let mut header = [0u8; head::JOB];
    let is_there = head::next(file, &mut header);
    if is_there {
        let size = chunks::read(file, text, work);
        play(rt, &header, &mut text[0..size], image, work);
    }
    is_there
}

fn main(rt: HostRuntime) {
    let mut text = [0u8; TEXT_ROOM];
    let mut image = [0u8; IMAGE_ROOM];
    let mut work = [0u8; WORK_ROOM];
    let mut file = feed::open(&rt);
    let count = feed::turns(|| turn(&rt, &mut file, &mut text, &mut image, &mut work));
    feed::finish(&rt, file, b"jobs #\n", count);
}
