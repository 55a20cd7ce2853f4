// The loader: one event at a time, over memory that the caller lends. It decides by value, by the functions of the
// crates above, and acts on the buffers here; what a pending command does to memory, `perform` does.
#![tactic(auto)]

ghost use Rattle.std.specs.Prelude.{◌≡◌, true, List, [], ◌∷◌, ℕ, ◌+◌, ◌≤◌, length, take};
ghost use Rattle.laws.specs.Bytes.{put};
ghost use Rattle.refusal.specs.Order.{first_of};
ghost use Rattle.board.specs.Layout.{logger, memory_bytes};
ghost use Rattle.board.specs.Sound.{Sound};
ghost use Rattle.request.specs.Request.{transfer_bytes};
ghost use Rattle.states.specs.WellFormed.{well_formed};
ghost use Rattle.loader.specs.Answer.{left};
ghost use Rattle.loader.specs.Inner.{InOrder};
ghost use Rattle.loader.specs.Serve.{run, run_of, status_bytes, status_of, poll_of, uploaded_of, sent_of, serve_of, command_codes};
ghost use Rattle.loader.specs.Step.{misfits, admitted_of, step_of};

use access::Access;
use action::Action;
use board::Board;
use command::Command;
use decision::Decision;
use device::{Device, Ran, Report};
use mode::Mode;
use refusal::Refusal;
use request::Setup;

// What happens to the device: it is plugged in, or the host asks for something.
#[derive(Clone, Copy)]
pub enum Event {
    Attach,
    Request,
}

#[derive(Clone, Copy)]
pub enum Answer {
    Accepted,
    // This many bytes stand at the front of the reply buffer.
    Reply(usize),
    Stall,
    Silent,
    // The call itself was wrong: nothing changed.
    Refused(Refusal),
}

#[derive(Clone, Copy)]
pub struct Stepped {
    pub device: Device,
    pub answer: Answer,
}

// The lengths of the lent buffers.
#[derive(Clone, Copy)]
pub struct Sizes {
    pub memory: usize,
    pub block: usize,
    pub reply: usize,
}

// One event. For an Attach the request is not looked at.
pub fn step(
    device: Device,
    event: Event,
    request: &[u8],
    memory: &mut [u8],
    block: &mut [u8],
    reply: &mut [u8],
) -> Stepped
    ensures { left result memory.new block.new reply.new ≡ step_of logger device event request.now memory.old block.old reply.old }
{
    let board = Board::LOGGER;
    let sizes = Sizes {
        memory: memory.len(),
        block: block.len(),
        reply: reply.len(),
    };
    match admit(board, device, event, request, sizes) {
        Err(refusal) => answered(device, Answer::Refused(refusal)),
        Ok(()) => match event {
            Event::Attach => answered(device.attach(board), Answer::Accepted),
            Event::Request => serve(board, device, request, memory, block, reply),
        },
    }
}

fn answered(device: Device, answer: Answer) -> Stepped
    ensures { result ≡ record { device = device; answer = answer } }
{
    Stepped { device, answer }
}

// The refusals of a step, in their order.
fn admit(
    board: Board,
    device: Device,
    event: Event,
    request: &[u8],
    sizes: Sizes,
) -> Result<(), Refusal>
    ensures { result ≡ admitted_of board device event request.now sizes }
{
    if sizes.memory != board.memory_bytes() {
        return Err(Refusal::Memory);
    }
    if sizes.block != Setup::TRANSFER as usize {
        return Err(Refusal::Block);
    }
    if sizes.reply != Setup::TRANSFER as usize {
        return Err(Refusal::Reply);
    }
    if !states::well_formed(device, board) {
        return Err(Refusal::State);
    }
    match event {
        Event::Attach => Ok(()),
        Event::Request => admit_request(request),
    }
}

fn admit_request(request: &[u8]) -> Result<(), Refusal>
    ensures { result ≡ first_of ((Refusal.Request, misfits Event.Request request.now) ∷ []) }
{
    if !request::fits(request) {
        return Err(Refusal::Request);
    }
    Ok(())
}

// A request, on a device and buffers that are in order.
fn serve(
    board: Board,
    device: Device,
    request: &[u8],
    memory: &mut [u8],
    block: &mut [u8],
    reply: &mut [u8],
) -> Stepped
    requires { InOrder board device request.now memory.old block.old reply.old }
    ensures { left result memory.new block.new reply.new ≡ serve_of board device request.now memory.old block.old reply.old }
{
    let setup = Setup::of(request);
    let command = Command::of(&request[8..]);
    match decision::decide(device, setup, command) {
        Decision::Silent => answered(device, Answer::Silent),
        Decision::Stall(next) => answered(next, Answer::Stall),
        Decision::Accept(next) => answered(next, Answer::Accepted),
        Decision::Take(next) => {
            buffer::put(block, 0, &request[8..]);
            answered(next, Answer::Accepted)
        }
        Decision::Commands { next, count } => {
            list_commands(reply, count);
            answered(next, Answer::Reply(count))
        }
        Decision::Read => upload(board, device, setup, memory, reply),
        Decision::State => {
            let mode = device.mode;
            buffer::put(reply, 0, &[mode.wire()]);
            answered(device, Answer::Reply(1))
        }
        Decision::Status => get_status(board, device, memory, block, reply),
    }
}

// The codes of the first `count` commands.
fn list_commands(reply: &mut [u8], count: usize)
    requires { (count ≤ 4) × (length reply.old ≡ transfer_bytes) }
    ensures { reply.new ≡ put 0 (take count command_codes) reply.old }
{
    let codes = [0x00, 0x21, 0x41, 0x92];
    buffer::put(reply, 0, &codes[0..count]);
}

// UPLOAD of memory: the checks, then the bytes.
fn upload(board: Board, device: Device, setup: Setup, memory: &[u8], reply: &mut [u8]) -> Stepped
    requires { Sound board × (length memory.now ≡ memory_bytes board) × (length reply.old ≡ transfer_bytes) × (setup.length ≤ transfer_bytes) }
    ensures { (b : List ℕ) → left result memory.now b reply.new ≡ uploaded_of board device setup memory.now b reply.old }
{
    let protected = protection::read_protected(board, memory);
    let count = setup.length;
    match access::examine_block(board, protected, setup.value, count, device.pointer) {
        Access::Denied(status) => answered(device.stall(status), Answer::Stall),
        Access::InFlash(at) | Access::InRam(at) | Access::InOptions(at) => {
            send(device, memory, at, count, reply)
        }
    }
}

// The bytes of memory from place `at` on are the reply.
fn send(device: Device, memory: &[u8], at: usize, count: u16, reply: &mut [u8]) -> Stepped
    requires { (at + count ≤ length memory.now) × (count ≤ length reply.old) }
    ensures { (b : List ℕ) → left result memory.now b reply.new ≡ sent_of at count device memory.now b reply.old }
{
    let end = at + count as usize;
    buffer::put(reply, 0, &memory[at..end]);
    answered(
        device.enter(Mode::UploadIdle),
        Answer::Reply(count as usize),
    )
}

// GETSTATUS: what is pending runs, then the report.
fn get_status(
    board: Board,
    device: Device,
    memory: &mut [u8],
    block: &[u8],
    reply: &mut [u8],
) -> Stepped
    requires { Sound board × (length memory.old ≡ memory_bytes board) × (length block.now ≡ transfer_bytes) × (length reply.old ≡ transfer_bytes) × (well_formed board device ≡ true) }
    ensures { left result memory.new block.now reply.new ≡ status_of board device memory.old block.now reply.old }
{
    let ran = run(board, device, memory, block);
    write_status(device.report(ran), reply);
    answered(device.status(ran), Answer::Reply(6))
}

// The six bytes of a status report.
fn write_status(report: Report, reply: &mut [u8])
    requires { length reply.old ≡ transfer_bytes }
    ensures { reply.new ≡ put 0 (status_bytes report) reply.old }
{
    let status = report.status;
    let state = report.state;
    let bytes = [status, poll(state), 0, 0, state, 0];
    buffer::put(reply, 0, &bytes);
}

// How long the host is to wait before it asks again.
fn poll(state: u8) -> u8
    ensures { result ≡ poll_of state }
{
    if state == 4 { 100 } else { 0 }
}

// The pending command, if there is one. Otherwise no byte of memory is looked at.
fn run(board: Board, device: Device, memory: &mut [u8], block: &[u8]) -> Ran
    requires { Sound board × (length memory.old ≡ memory_bytes board) × (length block.now ≡ transfer_bytes) × (well_formed board device ≡ true) }
    ensures { run result memory.new ≡ run_of board device block.now memory.old }
{
    if !device.waits() {
        let rest = Action::Rest;
        return rest.ran(device.pointer, 0);
    }
    let protected = protection::read_protected(board, memory);
    let action = action::intend(board, protected, device);
    let status = perform::perform(board, action, memory, block);
    action.ran(device.pointer, status)
}
