// Refusals: the line that names one, on standard output, and a sentence for people, on standard error.
use files::{Stream, System};
use refusal::Refusal;
use verdict::Verdict;

// The line and a sentence with its numbers.
pub(crate) fn say(rt: &impl System, why: Refusal, template: &[u8], numbers: &[usize]) {
    telling::line(rt, Stream::Out, Verdict::Refused(why));
    files::say(rt, Stream::Err, template, numbers);
}
