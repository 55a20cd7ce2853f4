// The device's state, by value, and where the events that need no memory take it.
#![tactic(auto)]

ghost use Rattle.std.specs.Prelude.{◌≡◌};
ghost use Rattle.mode.specs.Wire.{is_mode};
ghost use Rattle.device.specs.State.{started, idled, failed, stalled, entered, finished, ran_report, report_of, after_status};

use board::Board;
use mode::Mode;

// A command that waits for the GETSTATUS that runs it.
#[derive(Clone, Copy)]
pub enum Pending {
    Nothing,
    SetPointer(u32),
    ErasePage(u32),
    MassErase,
    ReadUnprotect,
    Write { block: u16, count: u16 },
}

// The device's state. A status is a number and no enum, here and below: a caller may hand in any state, well formed
// (`states`) or not, and a number that no device has stays what it is.
#[derive(Clone, Copy)]
pub struct Device {
    pub mode: Mode,
    pub status: u8,
    pub pointer: u32,
    pub pending: Pending,
}

// What the pending command came to. Where nothing was pending the status is 0 and the pointer the old one.
#[derive(Clone, Copy)]
pub struct Ran {
    pub status: u8,
    pub pointer: u32,
    pub reboots: bool,
}

// The status and the mode that GETSTATUS reports, by their wire numbers.
#[derive(Clone, Copy)]
pub struct Report {
    pub status: u8,
    pub state: u8,
}

impl Device {
    // The status numbers, by the names of USB DFU 1.1.
    pub const TARGET: u8 = 1;

    pub const WRITE: u8 = 3;

    pub const VENDOR: u8 = 11;

    pub const STALLED: u8 = 15;

    // A device that was just plugged in.
    pub fn start(board: Board) -> Device
        ensures { result ≡ started board }
    {
        Device {
            mode: Mode::Idle,
            status: 0,
            pointer: board.flash_first(),
            pending: Pending::Nothing,
        }
    }

    // An Attach, whatever the device was before.
    pub fn attach(self, board: Board) -> Device
        ensures { result ≡ started board }
    {
        Device::start(board)
    }

    // Back to idle, with the pointer kept: ABORT, and CLRSTATUS too.
    pub fn abort(self) -> Device
        ensures { result ≡ idled self }
    {
        Device {
            mode: Mode::Idle,
            status: 0,
            pending: Pending::Nothing,
            ..self
        }
    }

    // The error mode, with this status.
    fn fail(self, status: u8) -> Device
        ensures { result ≡ failed self status }
    {
        Device {
            mode: Mode::Error,
            status,
            pending: Pending::Nothing,
            ..self
        }
    }

    // A stall: the error mode, which keeps a status that it had before.
    pub fn stall(self, status: u8) -> Device
        ensures { result ≡ stalled self status }
    {
        if self.mode == Mode::Error {
            return self.fail(self.status);
        }
        self.fail(status)
    }

    // The same device in another mode.
    pub fn enter(self, mode: Mode) -> Device
        ensures { result ≡ entered self mode }
    {
        Device { mode, ..self }
    }

    // Does a command wait for a GETSTATUS to run it?
    pub fn waits(self) -> bool
        ensures { result ≡ is_mode 3 self.mode }
    {
        self.mode == Mode::DownloadSync
    }

    // The state after a GETSTATUS, `ran` being what the pending command came to.
    #[tactic(auto, unfolding(crate::specs::State::after_status))]
    pub fn status(self, ran: Ran) -> Device
        ensures { result ≡ after_status self ran }
    {
        match self.mode {
            Mode::DownloadSync => self.finish(ran),
            Mode::DownloadBusy => self.enter(Mode::DownloadIdle),
            Mode::ManifestSync => self.enter(Mode::Left),
            Mode::Idle
            | Mode::DownloadIdle
            | Mode::UploadIdle
            | Mode::Error
            | Mode::Left
            | Mode::Rebooting => self,
        }
    }

    // The state once the pending command ran.
    fn finish(self, ran: Ran) -> Device
        ensures { result ≡ finished self ran }
    {
        if ran.status != 0 {
            return self.fail(ran.status);
        }
        let mode = if ran.reboots {
            Mode::Rebooting
        } else {
            Mode::DownloadBusy
        };
        Device {
            mode,
            pointer: ran.pointer,
            pending: Pending::Nothing,
            ..self
        }
    }

    // What a GETSTATUS reports.
    #[tactic(auto, unfolding(crate::specs::State::report_of))]
    pub fn report(self, ran: Ran) -> Report
        ensures { result ≡ report_of self ran }
    {
        let mode = self.mode;
        let status = self.status;
        match mode {
            Mode::DownloadSync => ran.report(),
            Mode::DownloadBusy => Report {
                status,
                state: Mode::DownloadIdle.wire(),
            },
            Mode::ManifestSync => Report {
                status,
                state: Report::MANIFEST,
            },
            Mode::Idle
            | Mode::DownloadIdle
            | Mode::UploadIdle
            | Mode::Error
            | Mode::Left
            | Mode::Rebooting => Report {
                status,
                state: mode.wire(),
            },
        }
    }
}

impl Report {
    // dfuMANIFEST, which a GETSTATUS reports and the device never stays in.
    const MANIFEST: u8 = 7;
}

impl Ran {
    // What a GETSTATUS reports that ran a command.
    fn report(self) -> Report
        ensures { result ≡ ran_report self }
    {
        let mode = if self.status == 0 {
            Mode::DownloadBusy
        } else {
            Mode::Error
        };
        Report {
            status: self.status,
            state: mode.wire(),
        }
    }
}
