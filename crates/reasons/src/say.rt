// Words for people, on standard error.
use files::{Stream, System};
use mode::Mode;
use request::Request;

// Room for the longest name.
const NAME: usize = 64;

// A sentence, as the crate `sentence` reads a template.
pub(crate) fn fill(rt: &impl System, template: &[u8], numbers: &[usize]) {
    files::say(rt, Stream::Err, template, numbers);
}

pub(crate) fn request(rt: &impl System, request: Request) {
    let mut room = [0u8; NAME];
    let count = words::request(request, &mut room, 0);
    files::write(rt, Stream::Err, &room, count);
}

pub(crate) fn mode(rt: &impl System, mode: Mode) {
    let mut room = [0u8; NAME];
    let count = words::mode(mode, &mut room, 0);
    files::write(rt, Stream::Err, &room, count);
}
