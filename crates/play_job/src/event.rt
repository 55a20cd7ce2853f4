// The words of an event: what is asked for, and what became of it.
use device::{Device, Pending};
use loader::{Answer, Event, Stepped};
use player::Asked;
use request::{Request, Setup};

// Room for the longest name of a request, or of a mode and a status, and a bar behind each.
const NAMES_ROOM: usize = 64;

// How much is said of what is asked for, in the order of the sentence's parts: an Attach has no name, and a request
// without a block has a name only.
#[derive(Clone, Copy)]
enum Extent {
    Attach,
    Name,
    Block,
}

// What a DNLOAD is for, likewise.
#[derive(Clone, Copy)]
enum Order {
    Untold,
    Leave,
    Nothing,
    MassErase,
    ReadUnprotect,
    SetPointer,
    ErasePage,
    Write,
}

// What an UPLOAD reads, likewise; block 1 has no words.
#[derive(Clone, Copy)]
enum Source {
    Untold,
    Commands,
    Memory,
}

// What an event is for, and the address that a command has, or 0.
#[derive(Clone, Copy)]
struct Aim {
    extent: Extent,
    order: Order,
    address: u32,
    source: Source,
}

// Nothing but a name, or not even that.
fn bare(extent: Extent) -> Aim {
    Aim {
        extent,
        order: Order::Untold,
        address: 0,
        source: Source::Untold,
    }
}

// A DNLOAD without a command: to leave, or nothing; block 1 has no words.
fn idle(setup: Setup) -> Order {
    match (setup.length, setup.value) {
        (0, _) => Order::Leave,
        (_, 0) => Order::Nothing,
        _ => Order::Untold,
    }
}

// What a DNLOAD is for, and the address that it has, or 0.
fn order_of(setup: Setup, pending: Pending) -> (Order, u32) {
    match pending {
        Pending::Nothing => (idle(setup), 0),
        Pending::MassErase => (Order::MassErase, 0),
        Pending::ReadUnprotect => (Order::ReadUnprotect, 0),
        Pending::SetPointer(address) => (Order::SetPointer, address),
        Pending::ErasePage(address) => (Order::ErasePage, address),
        Pending::Write { .. } => (Order::Write, 0),
    }
}

fn source_of(block: u16) -> Source {
    match block {
        0 => Source::Commands,
        1 => Source::Untold,
        _ => Source::Memory,
    }
}

// What an event is for.
fn aim_of(asked: Asked) -> Aim {
    match (asked.setup.request(), asked.event) {
        (Request::Download, _) => {
            let (order, address) = order_of(asked.setup, asked.pending);
            Aim {
                order,
                address,
                ..bare(Extent::Block)
            }
        }
        (Request::Upload, _) => Aim {
            source: source_of(asked.setup.value),
            ..bare(Extent::Block)
        },
        (_, Event::Attach) => bare(Extent::Attach),
        (_, Event::Request) => bare(Extent::Name),
    }
}

// What became of an event, in the order of the sentence's parts.
#[derive(Clone, Copy)]
enum Told {
    Accepted,
    Reply,
    Stall,
    Silent,
    Refused,
}

// Likewise, and the number that belongs to it, or 0.
fn answered(answer: Answer) -> (Told, usize) {
    match answer {
        Answer::Accepted => (Told::Accepted, 0),
        Answer::Reply(count) => (Told::Reply, count),
        Answer::Stall => (Told::Stall, 0),
        Answer::Silent => (Told::Silent, 0),
        Answer::Refused(why) => (Told::Refused, why.number() as usize),
    }
}

// What an event asks of a device with this pointer.
pub(crate) fn request(number: usize, pointer: u32, asked: Asked, out: &mut [u8]) -> usize {
    let mut name = [0u8; NAMES_ROOM];
    let setup = asked.setup;
    let aim = aim_of(asked);
    let address = aim.address as usize;
    let from = access::block_address(setup.value, pointer) as usize;
    let end = words::request(setup.request(), &mut name, 0);
    append::say(b"|", &mut name, end);
    sentence::fill(
        b"#. [attach|$][||, block #, length #][|, leave|, no command|, mass erase|, read unprotect|, set pointer @|, erase page of @|, write to @][|, list commands|, read from @]",
        &[
            number,
            aim.extent as usize,
            aim.extent as usize,
            setup.value as usize,
            setup.length as usize,
            aim.order as usize,
            address,
            address,
            from,
            aim.source as usize,
            from,
        ],
        &name,
        out,
        0,
    )
}

// The names of the device's mode and status, with a bar behind each.
fn names(device: Device, out: &mut [u8]) {
    let end = words::mode(device.mode, out, 0);
    let end = append::say(b"|", out, end);
    let end = words::status(device.status, out, end);
    append::say(b"|", out, end);
}

// What became of an event.
pub(crate) fn outcome(stepped: Stepped, out: &mut [u8], at: usize) -> usize {
    let mut texts = [0u8; NAMES_ROOM];
    let (told, number) = answered(stepped.answer);
    names(stepped.device, &mut texts);
    sentence::fill(
        b": [accepted|reply of length #|stall|silent|refused, #]; $, $",
        &[told as usize, number, number],
        &texts,
        out,
        at,
    )
}

// How many events there were, and the device after them.
pub(crate) fn sum_up(number: usize, device: Device, out: &mut [u8]) -> usize {
    let mut texts = [0u8; NAMES_ROOM];
    names(device, &mut texts);
    sentence::fill(
        b"# event[s||s]; $, $; pointer @",
        &[number, number, device.pointer as usize],
        &texts,
        out,
        0,
    )
}
