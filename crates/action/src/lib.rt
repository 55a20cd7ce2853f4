// What a pending command does, decided from numbers alone.
#![tactic(auto)]

ghost use Rattle.std.specs.Prelude.{◌≡◌, cond};
ghost use Rattle.mode.specs.Wire.{err_vendor};
ghost use Rattle.action.specs.Action.{action_of, point_of, erase_at, erase_of, store_at, moved_of, reboots_of, ran_of, due_of, writes_of, erases_of, spares_of};
ghost use Rattle.decision.specs.Decide.{decide_of};

use access::Access;
use board::{Board, Place};
use command::Command;
use device::{Device, Pending, Ran};
use request::Setup;

// What a pending command does, once every check that needs no flash byte is made.
#[derive(Clone, Copy)]
pub enum Action {
    Rest,
    Fail(u8),
    Point(u32),
    Erase(usize),
    EraseAll,
    Unprotect,
    ClearRam,
    StoreFlash { at: usize, count: u16 },
    StoreRam { at: usize, count: u16 },
    StoreOptions { at: usize, count: u16 },
}

// The bytes that an action takes from the front of the block buffer: where they go in memory, and how many they are.
#[derive(Clone, Copy)]
pub struct Span {
    pub at: usize,
    pub count: u16,
}

// So many pages, from a first one on.
#[derive(Clone, Copy)]
pub struct Pages {
    pub first: usize,
    pub count: usize,
}

// The action that a request runs, if it is the GETSTATUS that a command waits for; it is not run by this.
#[tactic(auto, unfolding(crate::specs::Action::due_of, crate::specs::Action::status_action))]
pub fn due(board: Board, protected: bool, device: Device, setup: Setup) -> Action
    ensures { (k : Command) → result ≡ due_of board protected device (decide_of device setup k) }
{
    if decision::asks_status(device, setup) && device.waits() {
        return intend(board, protected, device);
    }
    Action::Rest
}

// What the device's pending command does.
#[tactic(auto, unfolding(crate::specs::Action::action_of))]
pub fn intend(board: Board, protected: bool, device: Device) -> Action
    ensures { result ≡ action_of board protected device }
{
    match device.pending {
        Pending::Nothing => Action::Rest,
        Pending::SetPointer(address) => point(board, address),
        Pending::ErasePage(address) => erase(board, protected, address),
        Pending::MassErase => guarded(protected, Action::EraseAll),
        Pending::ReadUnprotect => unprotect(protected),
        Pending::Write { block, count } => {
            let pointer = device.pointer;
            store(
                access::examine_block(board, protected, block, count, pointer),
                count,
            )
        }
    }
}

fn point(board: Board, address: u32) -> Action
    ensures { result ≡ point_of board address }
{
    if states::in_region(board, address) {
        return Action::Point(address);
    }
    Action::Fail(Device::TARGET)
}

// An erase, which read protection forbids.
fn guarded(protected: bool, action: Action) -> Action
    ensures { result ≡ cond protected (Action.Fail err_vendor) action }
{
    if protected {
        return Action::Fail(Device::VENDOR);
    }
    action
}

fn erase(board: Board, protected: bool, address: u32) -> Action
    ensures { result ≡ erase_of board protected address }
{
    guarded(protected, erase_at(board, board.place(address as u64, 1)))
}

fn erase_at(board: Board, place: Place) -> Action
    ensures { result ≡ erase_at board place }
{
    match place {
        Place::Flash(at) => Action::Erase(board.page_at(at)),
        Place::Ram(_) | Place::Options(_) | Place::Outside => Action::Fail(Device::TARGET),
    }
}

fn unprotect(protected: bool) -> Action
    ensures { result ≡ cond protected Action.Unprotect Action.ClearRam }
{
    if protected {
        return Action::Unprotect;
    }
    Action::ClearRam
}

fn store(access: Access, count: u16) -> Action
    ensures { result ≡ store_at access count }
{
    match access {
        Access::Denied(status) => Action::Fail(status),
        Access::InFlash(at) => Action::StoreFlash { at, count },
        Access::InRam(at) => Action::StoreRam { at, count },
        Access::InOptions(at) => Action::StoreOptions { at, count },
    }
}

impl Action {
    // What running the command came to, given the status of acting on memory.
    pub fn ran(self, pointer: u32, status: u8) -> Ran
        ensures { result ≡ ran_of self pointer status }
    {
        Ran {
            status,
            pointer: self.moved(pointer),
            reboots: self.reboots(),
        }
    }

    fn moved(self, pointer: u32) -> u32
        ensures { result ≡ moved_of self pointer }
    {
        match self {
            Action::Point(address) => address,
            Action::Rest
            | Action::Fail(_)
            | Action::Erase(_)
            | Action::EraseAll
            | Action::Unprotect
            | Action::ClearRam
            | Action::StoreFlash { .. }
            | Action::StoreRam { .. }
            | Action::StoreOptions { .. } => pointer,
        }
    }

    // What it stores.
    pub fn writes(self) -> Span
        ensures { result ≡ writes_of self }
    {
        match self {
            Action::StoreOptions { at, count }
            | Action::StoreFlash { at, count }
            | Action::StoreRam { at, count } => Span { at, count },
            Action::Rest
            | Action::Fail(_)
            | Action::Point(_)
            | Action::Erase(_)
            | Action::EraseAll
            | Action::Unprotect
            | Action::ClearRam => Span { at: 0, count: 0 },
        }
    }

    // Which pages it erases.
    pub fn erases(self, board: Board) -> Pages
        ensures { result ≡ erases_of board self }
    {
        match self {
            Action::Erase(page) => Pages {
                first: page,
                count: 1,
            },
            Action::EraseAll | Action::Unprotect => Pages {
                first: 0,
                count: board.flash_pages(),
            },
            Action::Rest
            | Action::Fail(_)
            | Action::Point(_)
            | Action::ClearRam
            | Action::StoreFlash { .. }
            | Action::StoreRam { .. }
            | Action::StoreOptions { .. } => Pages { first: 0, count: 0 },
        }
    }

    // Does it leave out write-protected pages?
    pub fn spares(self) -> bool
        ensures { result ≡ spares_of self }
    {
        matches!(
            self,
            Action::Erase(_) | Action::EraseAll | Action::StoreFlash { .. }
        )
    }

    // Does the board reboot after it?
    pub fn reboots(self) -> bool
        ensures { result ≡ reboots_of self }
    {
        matches!(
            self,
            Action::Unprotect | Action::ClearRam | Action::StoreOptions { .. }
        )
    }
}
