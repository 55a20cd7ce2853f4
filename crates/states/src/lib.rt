// Which states the loader can be in: the pointer in a region, a command pending where one can be, a status that fits.
#![tactic(auto)]

ghost use Rattle.std.specs.Prelude.{◌≡◌};
ghost use Rattle.states.specs.WellFormed.{well_formed, in_region, pending_fits, write_fits, status_fits};

use board::{Board, Place};
use device::{Device, Pending};
use mode::Mode;
use request::Setup;

// Is this a state that the loader can be in?
#[tactic(auto, unfolding(crate::specs::WellFormed::well_formed))]
pub fn well_formed(device: Device, board: Board) -> bool
    ensures { result ≡ well_formed board device }
{
    in_region(board, device.pointer)
        && pending_fits(device.mode, device.pending)
        && status_fits(device.mode, device.status)
}

// Does the address lie in a region?
#[tactic(auto, unfolding(crate::specs::WellFormed::in_region))]
pub fn in_region(board: Board, address: u32) -> bool
    ensures { result ≡ in_region board address }
{
    match board.place(address as u64, 1) {
        Place::Flash(_) | Place::Ram(_) | Place::Options(_) => true,
        Place::Outside => false,
    }
}

// Is a command pending exactly in mode 3, and a pending write one that DNLOAD accepts?
fn pending_fits(mode: Mode, pending: Pending) -> bool
    ensures { result ≡ pending_fits mode pending }
{
    let sync = mode == Mode::DownloadSync;
    match pending {
        Pending::Nothing => !sync,
        Pending::SetPointer(_)
        | Pending::ErasePage(_)
        | Pending::MassErase
        | Pending::ReadUnprotect => sync,
        Pending::Write { block, count } => sync && write_fits(block, count),
    }
}

fn write_fits(block: u16, count: u16) -> bool
    ensures { result ≡ write_fits block count }
{
    2 <= block && 1 <= count && count <= Setup::TRANSFER
}

// Is the status one of the error mode's in the error mode, and 0 elsewhere?
fn status_fits(mode: Mode, status: u8) -> bool
    ensures { result ≡ status_fits mode status }
{
    if mode != Mode::Error {
        return status == 0;
    }
    matches!(
        status,
        Device::TARGET | Device::WRITE | Device::VENDOR | Device::STALLED
    )
}
