// Packed events on a board, for the programs that play a job to one: what an event asks for, and what comes of it.
#![tactic(auto)]

ghost use Rattle.std.specs.Prelude.{◌≡◌, cond, eqb, drop, get_or};
ghost use Rattle.loader.specs.Answer.{left};
ghost use Rattle.player.specs.Played.{played_of};
ghost use Rattle.player.specs.Asked.{waits_of, asked_of};

use board::Board;
use command::Command;
use decision::Decision;
use device::{Device, Pending};
use loader::{Event, Stepped};
use request::Setup;

// What a packed event asks for. `pending` is the command that a request leaves waiting on a board that was just
// attached: the one that a DNLOAD spells, or none.
#[derive(Clone, Copy)]
pub struct Asked {
    pub event: Event,
    pub setup: Setup,
    pub pending: Pending,
}

// The bytes of a packed event before its request, and before its data.
const REQUEST: usize = 1;

const STAGE: usize = 9;

// What happens; an empty piece is an Attach.
fn kind(piece: &[u8]) -> Event
    ensures { result ≡ cond (eqb (get_or piece.now 0 0) 0) Event.Attach Event.Request }
{
    if buffer::byte_at(piece, 0) == 0 {
        return Event::Attach;
    }
    Event::Request
}

// What stands behind the first `count` bytes; nothing, where there are not so many.
fn behind(piece: &[u8], count: usize) -> &[u8]
    ensures { result.now ≡ drop count piece.now }
{
    piece.get(count..).unwrap_or(&[])
}

// A packed event happens to the device.
#[tactic(auto, using(crate::proofs::Pieces::played_by))]
pub fn step(
    device: Device,
    piece: &[u8],
    memory: &mut [u8],
    block: &mut [u8],
    reply: &mut [u8],
) -> Stepped
    ensures { left result memory.new block.new reply.new ≡ played_of device piece.now memory.old block.old reply.old }
{
    loader::step(
        device,
        kind(piece),
        behind(piece, REQUEST),
        memory,
        block,
        reply,
    )
}

// The command that waits after a decision, where it is one that can leave a command.
fn waits(decision: Decision) -> Pending
    ensures { result ≡ waits_of decision }
{
    match decision {
        Decision::Accept(next) | Decision::Take(next) => next.pending,
        Decision::Stall(_)
        | Decision::Silent
        | Decision::Commands { .. }
        | Decision::Read
        | Decision::State
        | Decision::Status => Pending::Nothing,
    }
}

// What a packed event asks for. Bytes that are not there count as 0.
#[tactic(auto, unfolding(crate::specs::Asked::asked_of))]
pub fn asks(piece: &[u8]) -> Asked
    ensures { result ≡ asked_of piece.now }
{
    let setup = Setup::of(behind(piece, REQUEST));
    let command = Command::of(behind(piece, STAGE));
    let device = Device::start(Board::LOGGER);
    Asked {
        event: kind(piece),
        setup,
        pending: waits(decision::decide(device, setup, command)),
    }
}
