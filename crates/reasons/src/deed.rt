// What requests ask for and what commands do, in words, with the addresses that they concern.
use crate::{form, place, say};
use device::{Device, Pending};
use files::System;
use request::{Request, Setup};

// What is done, in the order of the parts of the sentence in `tell`.
#[derive(Clone, Copy, PartialEq, Eq)]
enum What {
    Nothing,
    Unknown,
    MassErase,
    ReadUnprotect,
    SetPointer,
    ErasePage,
    Write,
    Leave,
    List,
    Read,
    // A transfer of block 1, which no address has.
    Astray,
}

// A deed with the block and so many bytes from an address on; a count of 0 stands for none: the sentence picks by it.
#[derive(Clone, Copy)]
pub struct Deed {
    what: What,
    block: u16,
    count: u16,
    from: u64,
    size: u16,
}

// A deed that concerns no address.
fn plain(what: What, block: u16, count: u16) -> Deed {
    Deed {
        what,
        block,
        count,
        from: 0,
        size: 0,
    }
}

// One that concerns an address.
fn pointed(what: What, address: u32) -> Deed {
    Deed {
        from: address as u64,
        size: 1,
        ..plain(what, 0, 0)
    }
}

// One that moves a block.
fn moved(what: What, block: u16, count: u16, pointer: u32) -> Deed {
    Deed {
        from: access::block_address(block, pointer),
        size: count,
        ..plain(what, block, count)
    }
}

// A command that waits, or would.
fn of(pointer: u32, pending: Pending) -> Deed {
    match pending {
        Pending::Nothing => plain(What::Unknown, 0, 0),
        Pending::MassErase => plain(What::MassErase, 0, 0),
        Pending::ReadUnprotect => plain(What::ReadUnprotect, 0, 0),
        Pending::SetPointer(address) => pointed(What::SetPointer, address),
        Pending::ErasePage(address) => pointed(What::ErasePage, address),
        Pending::Write { block, count } => moved(What::Write, block, count, pointer),
    }
}

// A DNLOAD; `spelled` is the command that it spells.
fn download(pointer: u32, setup: Setup, spelled: Pending) -> Deed {
    if setup.length == 0 {
        return plain(What::Leave, 0, 0);
    }
    if setup.value == 1 {
        return plain(What::Nothing, 1, setup.length);
    }
    of(pointer, spelled)
}

fn upload(pointer: u32, setup: Setup) -> Deed {
    let block = setup.value;
    let count = setup.length;
    match block {
        0 => plain(What::List, 0, 0),
        1 => plain(What::Astray, block, count),
        _ => moved(What::Read, block, count, pointer),
    }
}

// What a GETSTATUS runs.
fn status(pointer: u32, waits: Pending) -> Deed {
    match waits {
        Pending::Nothing => plain(What::Nothing, 0, 0),
        _ => of(pointer, waits),
    }
}

// A request that the loader knows.
fn known(device: Device, request: Request, setup: Setup, spelled: Pending) -> Deed {
    let pointer = device.pointer;
    let waits = device.pending;
    match request {
        Request::Download => download(pointer, setup, spelled),
        Request::Upload => upload(pointer, setup),
        Request::GetStatus => status(pointer, waits),
        _ => plain(What::Nothing, 0, 0),
    }
}

// What stands in front of the deed: nothing, what a GETSTATUS runs, or what a DNLOAD is for.
#[derive(Clone, Copy)]
enum Lead {
    Nothing,
    Runs,
    Aims,
}

impl Lead {
    fn of(request: Request, what: What) -> Lead {
        match request {
            Request::GetStatus if what != What::Nothing => Lead::Runs,
            Request::Download if what != What::Leave => Lead::Aims,
            _ => Lead::Nothing,
        }
    }
}

fn tell(rt: &impl System, lead: Lead, deed: Deed) {
    let what = deed.what as usize;
    let count = deed.count as usize;
    let block = deed.block as usize;
    say::fill(
        rt,
        b"[|, which runs | for ][|a command that the loader does not know|the mass erase|the read unprotect|the set pointer to |the erase of the page at |the write of | of length 0, which asks the loader to leave| of the list of commands| of | of ][|# byte, block #|# bytes, block #][||||||, into |||, out of |]",
        &[lead as usize, what, count, count, block, count, block, what],
    );
    if deed.size != 0 {
        place::span(rt, deed.from, deed.size);
    }
}

// How the first word begins: with a capital at the front of a sentence, else with a small letter.
#[derive(Clone, Copy)]
pub(crate) enum Letter {
    Capital,
    Small,
}

// The line that changed something, and what it ran on the device.
pub(crate) fn ran(rt: &impl System, letter: Letter, line: usize, device: Device) {
    say::fill(rt, b"[L|l]ine # of the job runs ", &[letter as usize, line]);
    tell(rt, Lead::Nothing, of(device.pointer, device.pending));
}

// A request to a device in this state; `spelled` is the command that its data spells.
pub(crate) fn describe(rt: &impl System, device: Device, setup: Setup, spelled: Pending) {
    let request = setup.request();
    let deed = known(device, request, setup, spelled);
    say::request(rt, form::named(setup));
    match request {
        Request::Unknown => form::describe(rt, setup),
        _ => tell(rt, Lead::of(request, deed.what), deed),
    }
}
