// Telling a verdict: the line that it is printed by, a file that is read or refused, and what it takes to explain a
// verdict: the job's events, packed, where only boards that live through them can tell why.
#![tactic(auto)]

ghost use Rattle.std.specs.Prelude.{◌≡◌};
ghost use Rattle.refusal.specs.Delivery.{delivery};
ghost use Rattle.files.specs.Came.{Came};
ghost use Rattle.telling.specs.Gathered.{told_at_once, gathered_of};

use files::{Stream, System, Unread, Wanted};
use refusal::Refusal;
use verdict::Verdict;

// How much is said of a file that cannot be read: nothing, the line that refuses, or that line and a sentence.
#[derive(Clone, Copy, PartialEq, Eq)]
pub enum Much {
    Nothing,
    Line,
    Words,
}

// A line has a word, a digit or two, and a number.
const LINE_ROOM: usize = 64;

// Prints the verdict's line.
pub fn line(rt: &impl System, to: Stream, verdict: Verdict) {
    let mut line = [0u8; LINE_ROOM];
    if let Ok(count) = verdict::report(verdict, &mut line) {
        files::write(rt, to, &line, count);
    }
}

// Refuses for a file: the line goes to `to`, a sentence to standard error.
fn refuse(rt: &impl System, to: Stream, much: Much, unread: Unread, file: Wanted) {
    if much != Much::Nothing {
        line(rt, to, Verdict::Refused(Refusal::File));
    }
    if much == Much::Words {
        files::unreadable(rt, unread, file);
    }
}

// What came of a file, and a refusal said where it is not read.
fn said(
    rt: &impl System,
    to: Stream,
    much: Much,
    file: Wanted,
    came: Result<usize, Unread>,
) -> Result<usize, Unread>
    ensures { result ≡ came }
{
    match came {
        Ok(count) => Ok(count),
        Err(unread) => {
            refuse(rt, to, much, unread, file);
            Err(unread)
        }
    }
}

// Reads a file, or refuses for it and says as much as is asked for.
pub fn load(
    rt: &impl System,
    to: Stream,
    much: Much,
    file: Wanted,
    buffer: &mut [u8],
) -> Result<usize, Unread>
    ensures { Came result buffer.old buffer.new }
{
    let came = files::read(rt, file, buffer);
    said(rt, to, much, file, came)
}

// Is the verdict explained without a board?
fn told_at_once(verdict: Verdict) -> bool
    ensures { result ≡ told_at_once verdict }
{
    matches!(verdict, Verdict::Pass | Verdict::Refused(_))
}

// The job's events go to the front of `room`, packed, where they are needed. A packed job has half the bytes of its
// text at most: the checker's work area, which nobody needs after the verdict, is room enough.
pub fn gather(verdict: Verdict, job: &[u8], room: &mut [u8]) -> Result<usize, Refusal>
    ensures { delivery result room.new ≡ gathered_of verdict job.now room.old }
{
    if told_at_once(verdict) {
        return Ok(0);
    }
    job::read(job, room)
}
