// The line of a job: the verdict's report, and for a refusal the digest of the work area behind it.
ghost use Rattle.std.specs.Prelude.{◌≤◌};

use verdict::Verdict;

// Room for a report.
const ROOM: usize = 64;

// How much of a report is printed: its line end comes behind the digest, if there is one.
fn shown(size: usize, is_refused: bool) -> usize
    ensures { result ≤ 64 }
{
    if ROOM < size {
        return 0;
    }
    if is_refused {
        size.saturating_sub(1)
    } else {
        size
    }
}

// The digest's four bytes: `%` prints the low one of its number.
fn print_digest(rt: &impl Print, work: &[u8]) {
    let d = vectors::digest(work);
    feed::print(rt, b"\t%%%%\n", &[d / 16777216, d / 65536, d / 256, d]);
}

pub(crate) fn print(rt: &impl Print, verdict: Verdict, work: &[u8]) {
    let mut line = [0u8; ROOM];
    let done = verdict::report(verdict, &mut line);
    let told = numbers::told(done);
    let is_refused = matches!(verdict, Verdict::Refused(_));
    let _ = rt.write_all(&line[0..shown(told.count, is_refused)]);
    if is_refused {
        print_digest(rt, work);
    }
}
