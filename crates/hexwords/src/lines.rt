// The lines of a text, well formed or not.
ghost use Rattle.std.specs.Prelude.{◌≤◌, length};

// How long the line at the front is, with its end; all that is left, where it does not end.
fn length(rest: &[u8]) -> usize
    ensures { result ≤ length rest.now }
{
    match rest.iter().position(|byte| *byte == b'\n') {
        Some(at) => at + 1,
        None => rest.len(),
    }
}

// The line at the front, with its end.
pub(crate) fn first(rest: &[u8]) -> &[u8]
    ensures { length result.now ≤ length rest.now }
{
    &rest[0..length(rest)]
}

// What stands behind the line at the front.
pub(crate) fn others(rest: &[u8]) -> &[u8]
    ensures { length result.now ≤ length rest.now }
{
    &rest[length(rest)..]
}

// A text from one of its lines on, counted from 1; nothing, if there are not so many.
pub(crate) fn from(text: &[u8], line: usize) -> &[u8]
    ensures { length result.now ≤ length text.now }
{
    let mut rest = text;
    for _ in 1..line {
        rest = others(rest);
    }
    rest
}

// A line without its end, LF or CR LF; all of it, where it does not end.
pub(crate) fn record(line: &[u8]) -> &[u8]
    ensures { length result.now ≤ length line.now }
{
    match line {
        [record @ .., b'\r', b'\n'] | [record @ .., b'\n'] => record,
        _ => line,
    }
}
