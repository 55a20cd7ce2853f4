// Modes and pending commands as the numbers that stand for them in records and lines.
use device::Pending;
use mode::Mode;

// A mode is its number on the wire; two have none there, and are 0 and this number.
const REBOOTING: u8 = 1;

pub(crate) fn mode(code: u8) -> Mode {
    match code {
        0 => Mode::Left,
        2 => Mode::Idle,
        3 => Mode::DownloadSync,
        4 => Mode::DownloadBusy,
        5 => Mode::DownloadIdle,
        6 => Mode::ManifestSync,
        9 => Mode::UploadIdle,
        10 => Mode::Error,
        _ => Mode::Rebooting,
    }
}

pub(crate) fn code(mode: Mode) -> u8 {
    if mode == Mode::Rebooting {
        REBOOTING
    } else {
        mode.wire()
    }
}

// The kinds of pending command, in the order of their numbers.
#[derive(Clone, Copy)]
pub(crate) enum Kind {
    Nothing,
    SetPointer,
    ErasePage,
    MassErase,
    ReadUnprotect,
    Write,
}

impl From<u8> for Kind {
    fn from(code: u8) -> Kind {
        match code {
            1 => Kind::SetPointer,
            2 => Kind::ErasePage,
            3 => Kind::MassErase,
            4 => Kind::ReadUnprotect,
            5 => Kind::Write,
            _ => Kind::Nothing,
        }
    }
}

// A pending command in numbers, 0 where it has none.
#[derive(Clone, Copy)]
pub(crate) struct Spelled {
    pub kind: Kind,
    pub address: u32,
    pub block: u16,
    pub count: u16,
}

impl From<Spelled> for Pending {
    fn from(s: Spelled) -> Pending {
        match s.kind {
            Kind::Nothing => Pending::Nothing,
            Kind::SetPointer => Pending::SetPointer(s.address),
            Kind::ErasePage => Pending::ErasePage(s.address),
            Kind::MassErase => Pending::MassErase,
            Kind::ReadUnprotect => Pending::ReadUnprotect,
            Kind::Write => Pending::Write {
                block: s.block,
                count: s.count,
            },
        }
    }
}

impl From<Pending> for Spelled {
    fn from(pending: Pending) -> Spelled {
        let (kind, address, block, count) = match pending {
            Pending::Nothing => (Kind::Nothing, 0, 0, 0),
            Pending::SetPointer(address) => (Kind::SetPointer, address, 0, 0),
            Pending::ErasePage(address) => (Kind::ErasePage, address, 0, 0),
            Pending::MassErase => (Kind::MassErase, 0, 0, 0),
            Pending::ReadUnprotect => (Kind::ReadUnprotect, 0, 0, 0),
            Pending::Write { block, count } => (Kind::Write, 0, block, count),
        };
        Spelled {
            kind,
            address,
            block,
            count,
        }
    }
}
