// The form of each request, by its type and code: what its fields have to be.
use crate::say;
use files::System;
use request::{Request, Setup};

// The request that type and code name, whatever the fields are.
pub(crate) fn named(setup: Setup) -> Request {
    match (setup.kind, setup.code) {
        (0x21, 1) => Request::Download,
        (0x21, 4) => Request::ClearStatus,
        (0x21, 6) => Request::Abort,
        (0xA1, 2) => Request::Upload,
        (0xA1, 3) => Request::GetStatus,
        (0xA1, 5) => Request::GetState,
        _ => Request::Unknown,
    }
}

// A setup's code where type and code name a request, else 0: so the sentences count requests.
fn number(setup: Setup) -> usize {
    match named(setup) {
        Request::Unknown => 0,
        _ => setup.code as usize,
    }
}

// A setup that is none of the loader's requests, behind the name that its type and code have.
pub(crate) fn describe(rt: &impl System, setup: Setup) {
    say::fill(
        rt,
        b"[ (type 0x%, code #)| with wValue #, wIndex # and wLength #]",
        &[
            number(setup),
            setup.kind as usize,
            setup.code as usize,
            setup.value as usize,
            setup.index as usize,
            setup.length as usize,
        ],
    );
}

// What to do about fields that are not as they have to be, in the order of the sentence's parts.
#[derive(Clone, Copy)]
enum Cure {
    Nothing,
    Setup,
    Writes,
    Reads,
}

impl Cure {
    // Correct the setup, or write or read in more blocks: only blocks can be too long.
    fn of(request: Request, length: u16) -> Cure {
        match request {
            Request::Unknown => Cure::Nothing,
            Request::Download if Setup::TRANSFER < length => Cure::Writes,
            Request::Upload if Setup::TRANSFER < length => Cure::Reads,
            _ => Cure::Setup,
        }
    }
}

// What the fields have to be.
pub(crate) fn correct(rt: &impl System, setup: Setup) {
    say::fill(
        rt,
        b"The loader stalls it, for [only DNLOAD, UPLOAD, GETSTATUS, CLRSTATUS, GETSTATE and ABORT are known to it. Correct type and code, or take the line out.|a DNLOAD has wIndex 0 and wLength 0 to #.|an UPLOAD has wIndex 0 and wLength 1 to #.|a GETSTATUS has wValue 0, wIndex 0 and wLength 6.|a CLRSTATUS has wValue 0, wIndex 0 and wLength 0.|a GETSTATE has wValue 0, wIndex 0 and wLength 1.|an ABORT has wValue 0, wIndex 0 and wLength 0.][| Correct the setup.| Write the bytes in two or more blocks.| Read the bytes in two or more blocks.]",
        &[
            number(setup),
            Setup::TRANSFER as usize,
            Setup::TRANSFER as usize,
            Cure::of(named(setup), setup.length) as usize,
        ],
    );
}
