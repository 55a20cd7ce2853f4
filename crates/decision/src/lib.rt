// What a request comes to, decided from numbers alone. Loader and checker both act on it.
#![tactic(auto)]

ghost use Rattle.std.specs.Prelude.{◌≡◌};
ghost use Rattle.decision.specs.Decide.{decide_of, is_status, served_of, download_of, commanded_of, upload_of, listed_count, waiting, refused_of};

use command::Command;
use device::{Device, Pending};
use mode::Mode;
use request::{Request, Setup};

// What a request comes to. Stall, Accept, Take and Commands carry the device after it.
#[derive(Clone, Copy)]
pub enum Decision {
    Silent,
    Stall(Device),
    Accept(Device),
    // Accepted, and the data goes to the block buffer.
    Take(Device),
    // The first `count` of the command codes are the reply.
    Commands { next: Device, count: usize },
    // Memory is read, if the checks allow.
    Read,
    State,
    // What is pending runs first.
    Status,
}

// Does the request come to Status? Most requests of a job do, and no command has to be read for it: a caller may ask
// this first.
#[tactic(auto, using(crate::proofs::Asking::taken, crate::proofs::Asking::other))]
pub fn asks_status(device: Device, setup: Setup) -> bool
    ensures { (k : Command) → result ≡ is_status (decide_of device setup k) }
{
    setup.request() == Request::GetStatus && mode::allowed(Request::GetStatus, device.mode)
}

// A request in any mode.
#[tactic(auto, unfolding(crate::specs::Decide::decide_of))]
pub fn decide(device: Device, setup: Setup, command: Command) -> Decision
    ensures { result ≡ decide_of device setup command }
{
    if matches!(device.mode, Mode::Left | Mode::Rebooting) {
        return Decision::Silent;
    }
    let request = setup.request();
    if !mode::allowed(request, device.mode) {
        return refused(device);
    }
    serve(request, device, setup, command)
}

// A stall with the status that applies where no other is named.
fn refused(device: Device) -> Decision
    ensures { result ≡ refused_of device }
{
    Decision::Stall(device.stall(Device::STALLED))
}

// An allowed request.
fn serve(request: Request, device: Device, setup: Setup, command: Command) -> Decision
    ensures { result ≡ served_of request device setup command }
{
    match request {
        Request::Download => download(device, setup, command),
        Request::Upload => upload(device, setup),
        Request::GetStatus => Decision::Status,
        Request::ClearStatus | Request::Abort => Decision::Accept(device.abort()),
        Request::GetState => Decision::State,
        Request::Unknown => refused(device),
    }
}

// DNLOAD: leave, a command, or a block to be written.
#[tactic(auto, unfolding(crate::specs::Decide::download_of))]
fn download(device: Device, setup: Setup, command: Command) -> Decision
    ensures { result ≡ download_of device setup command }
{
    match (setup.value, setup.length) {
        (_, 0) => Decision::Accept(device.enter(Mode::ManifestSync)),
        (0, count) => commanded(device, count, command),
        (1, _) => refused(device),
        (block, count) => Decision::Take(wait(device, Pending::Write { block, count })),
    }
}

// A command, by its first byte and the number of data bytes.
#[tactic(auto, unfolding(crate::specs::Decide::commanded_of))]
fn commanded(device: Device, count: u16, command: Command) -> Decision
    ensures { result ≡ commanded_of device count command }
{
    let pending = match (command.code, count) {
        (0x21, 5) => Pending::SetPointer(command.address),
        (0x41, 5) => Pending::ErasePage(command.address),
        (0x41, 1) => Pending::MassErase,
        (0x92, 1) => Pending::ReadUnprotect,
        _ => return refused(device),
    };
    Decision::Accept(wait(device, pending))
}

// The device with a command that waits for its GETSTATUS.
fn wait(device: Device, pending: Pending) -> Device
    ensures { result ≡ waiting device pending }
{
    Device {
        mode: Mode::DownloadSync,
        pending,
        ..device
    }
}

// UPLOAD: the list of commands, or memory.
#[tactic(auto, unfolding(crate::specs::Decide::upload_of))]
fn upload(device: Device, setup: Setup) -> Decision
    ensures { result ≡ upload_of device setup }
{
    match setup.value {
        0 => Decision::Commands {
            next: device.enter(Mode::Idle),
            count: listed(setup.length),
        },
        1 => refused(device),
        2.. => Decision::Read,
    }
}

// How many of the four command codes a reply of this length has.
fn listed(count: u16) -> usize
    ensures { result ≡ listed_count count }
{
    count.min(4) as usize
}
