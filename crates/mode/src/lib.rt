// The device's modes, and which requests each takes.
#![tactic(auto)]

ghost use Rattle.std.specs.Prelude.{◌≡◌};
ghost use Rattle.mode.specs.Wire.{wire_of};
ghost use Rattle.mode.specs.Table.{allowed_of};

use request::Request;

#[derive(Clone, Copy, Debug, PartialEq, Eq)]
pub enum Mode {
    Idle,
    DownloadSync,
    DownloadBusy,
    DownloadIdle,
    ManifestSync,
    UploadIdle,
    Error,
    Left,
    Rebooting,
}

impl Mode {
    // The number that goes over the wire. Left and Rebooting answer nothing; theirs is never sent.
    pub fn wire(self) -> u8
        ensures { result ≡ wire_of self }
    {
        match self {
            Mode::Idle => 2,
            Mode::DownloadSync => 3,
            Mode::DownloadBusy => 4,
            Mode::DownloadIdle => 5,
            Mode::ManifestSync => 6,
            Mode::UploadIdle => 9,
            Mode::Error => 10,
            Mode::Left => 0,
            Mode::Rebooting => 0,
        }
    }
}

// Is the request taken in this mode? The requests in document 01's order, each with its column "Modes", by number.
// The arm names the modes that take it or, where the paper says "all", those that do not. docs/REQUESTS.md has the
// answers as a table, printed by `request_table`.
#[tactic(auto, unfolding(crate::specs::Table::allowed_of))]
pub fn allowed(request: Request, mode: Mode) -> bool
    ensures { result ≡ allowed_of request mode }
{
    match request {
        Request::Download => {
            // 2, 5
            matches!(mode, Mode::Idle | Mode::DownloadIdle)
        }
        Request::Upload => {
            // 2, 9
            matches!(mode, Mode::Idle | Mode::UploadIdle)
        }
        Request::GetStatus => {
            // all seven
            !matches!(mode, Mode::Left | Mode::Rebooting)
        }
        Request::ClearStatus => {
            // 10
            mode == Mode::Error
        }
        Request::GetState => {
            // all but 4
            !matches!(mode, Mode::DownloadBusy | Mode::Left | Mode::Rebooting)
        }
        Request::Abort => {
            // 2, 3, 5, 6, 9
            matches!(
                mode,
                Mode::Idle
                    | Mode::DownloadSync
                    | Mode::DownloadIdle
                    | Mode::ManifestSync
                    | Mode::UploadIdle
            )
        }
        Request::Unknown => false,
    }
}
