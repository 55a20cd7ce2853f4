// Prints which request is taken in which mode, as `mode::allowed` answers: the table of docs/REQUESTS.md.
#![tactic(auto)]

use files::{Stream, System};
use mode::Mode;
use request::Request;

// Room for a line.
const ROOM: usize = 128;

// A line of the table: the names of the requests, or a mode with its answers. An Option of a mode would not say which.
#[derive(Clone, Copy)]
enum Line {
    Names,
    Answers(Mode),
}

// The mode's number, and a space behind it; two modes have none.
fn number(mode: Mode, out: &mut [u8], at: usize) -> usize {
    let number = mode.wire();
    if number == 0 {
        return at;
    }
    sentence::fill(b"# ", &[number as usize], b"", out, at)
}

// What stands before the first request.
fn title(line: Line, out: &mut [u8], at: usize) -> usize {
    match line {
        Line::Names => append::say(b"mode", out, at),
        Line::Answers(mode) => {
            let behind = number(mode, out, at);
            words::mode(mode, out, behind)
        }
    }
}

// Is the request taken in this mode? In a word.
fn answer(request: Request, mode: Mode, out: &mut [u8], at: usize) -> usize {
    if mode::allowed(request, mode) {
        return append::say(b"yes", out, at);
    }
    append::say(b"no", out, at)
}

// What stands in the request's column.
fn cell(line: Line, request: Request, out: &mut [u8], at: usize) -> usize {
    let begun = append::say(b" | ", out, at);
    match line {
        Line::Names => words::request(request, out, begun),
        Line::Answers(mode) => answer(request, mode, out, begun),
    }
}

// A line, with a column for each request in document 01's order.
fn print(rt: &impl System, line: Line) {
    let mut room = [0u8; ROOM];
    let begun = append::say(b"| ", &mut room, 0);
    let mut at = title(line, &mut room, begun);
    for request in [
        Request::Download,
        Request::Upload,
        Request::GetStatus,
        Request::ClearStatus,
        Request::GetState,
        Request::Abort,
        Request::Unknown,
    ] {
        at = cell(line, request, &mut room, at);
    }
    let end = append::say(b" |\n", &mut room, at);
    files::write(rt, Stream::Out, &room, end);
}

fn main(rt: HostRuntime) {
    print(&rt, Line::Names);
    let rule = b"|---|---|---|---|---|---|---|---|\n";
    files::write(&rt, Stream::Out, rule, rule.len());
    for mode in [
        Mode::Idle,
        Mode::DownloadSync,
        Mode::DownloadBusy,
        Mode::DownloadIdle,
        Mode::ManifestSync,
        Mode::UploadIdle,
        Mode::Error,
        Mode::Left,
        Mode::Rebooting,
    ] {
        print(&rt, Line::Answers(mode));
    }
}
