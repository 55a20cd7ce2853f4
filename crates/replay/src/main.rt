// Replays the file vectors.bin through the loader's step, and prints a line for each event.
//
// model/vectors.py makes the file and the text that this program has to print; model/tape.py says
// what both mean.
#![tactic(auto)]

mod codes;
mod output;
mod record;
mod scene;

use board::Board;
use device::Device;
use record::Kind;
use scene::Lending;

// Room for a record with the longest request behind it, and for every buffer a byte longer than is right.
const TAPE_ROOM: usize = record::SIZE + record::LONGEST;

const MEMORY_ROOM: usize = Board::LOGGER_MEMORY + 1;

// Lets the event happen, if the record is one, and prints what became of it.
fn happen(
    rt: &impl Print,
    device: Device,
    kind: Kind,
    request: &[u8],
    memory: &mut [u8],
    block: &mut [u8],
    reply: &mut [u8],
) -> Device {
    let Some(event) = kind.event() else {
        return device;
    };
    let stepped = loader::step(device, event, request, memory, block, reply);
    output::print(rt, stepped, memory, block, reply);
    stepped.device
}

// The step is lent the request behind the record, and the front of each buffer.
fn lend(
    rt: &impl Print,
    lending: Lending,
    tape: &[u8],
    memory: &mut [u8],
    block: &mut [u8],
    reply: &mut [u8],
) -> Device {
    let device = lending.device;
    let ends = scene::ends_of(lending, tape.len(), memory.len(), block.len(), reply.len());
    let from = ends.from;
    let to = ends.to;
    let m = ends.memory;
    let b = ends.block;
    let y = ends.reply;
    happen(
        rt,
        device,
        lending.kind,
        &tape[from..to],
        &mut memory[0..m],
        &mut block[0..b],
        &mut reply[0..y],
    )
}

fn turn(
    rt: &impl Print,
    before: Lending,
    tape: &[u8],
    memory: &mut [u8],
    block: &mut [u8],
    reply: &mut [u8],
) -> Lending {
    let lending = scene::after(before, tape);
    scene::paint(tape, memory, block, reply);
    let device = lend(rt, lending, tape, memory, block, reply);
    Lending { device, ..lending }
}

fn main(rt: HostRuntime) {
    let mut tape = [0u8; TAPE_ROOM];
    let mut memory = [0u8; MEMORY_ROOM];
    let mut block = [0u8; scene::OTHERS];
    let mut reply = [0u8; scene::OTHERS];
    let mut file = feed::open(&rt);
    let mut lending = scene::empty();
    let mut events = 0usize;
    feed::turns(|| {
        let is_there = record::next(&mut file, &mut tape);
        if is_there {
            lending = turn(&rt, lending, &tape, &mut memory, &mut block, &mut reply);
            events = events.saturating_add(usize::from(lending.kind.event().is_some()));
        }
        is_there
    });
    feed::finish(&rt, file, b"events #\n", events);
}
