// Words for people: the names of requests, modes and statuses, said into a lent buffer.
//
// Each function gives the place behind what it wrote. What finds no room is left out.
#![tactic(auto)]

ghost use Rattle.std.specs.Prelude.{◌≡◌, MatchOption};
ghost use Rattle.decimal.specs.Decimal.{decimal_of};
ghost use Rattle.append.specs.Said.{left, said_of};
ghost use Rattle.words.specs.Words.{request_name, mode_name, status_name};

use device::Device;
use mode::Mode;
use request::Request;

fn request_name(request: Request) -> &'static [u8]
    ensures { result.now ≡ request_name request }
{
    match request {
        Request::Download => b"DNLOAD",
        Request::Upload => b"UPLOAD",
        Request::GetStatus => b"GETSTATUS",
        Request::ClearStatus => b"CLRSTATUS",
        Request::GetState => b"GETSTATE",
        Request::Abort => b"ABORT",
        Request::Unknown => b"a request that the loader does not know",
    }
}

// The request's name.
pub fn request(request: Request, out: &mut [u8], at: usize) -> usize
    ensures { left result out.new ≡ said_of (request_name request) out.old at }
{
    append::say(request_name(request), out, at)
}

fn mode_name(mode: Mode) -> &'static [u8]
    ensures { result.now ≡ mode_name mode }
{
    match mode {
        Mode::Idle => b"dfuIDLE",
        Mode::DownloadSync => b"dfuDNLOAD-SYNC",
        Mode::DownloadBusy => b"dfuDNBUSY",
        Mode::DownloadIdle => b"dfuDNLOAD-IDLE",
        Mode::ManifestSync => b"dfuMANIFEST-SYNC",
        Mode::UploadIdle => b"dfuUPLOAD-IDLE",
        Mode::Error => b"dfuERROR",
        Mode::Left => b"left",
        Mode::Rebooting => b"rebooting",
    }
}

// The mode's name.
pub fn mode(mode: Mode, out: &mut [u8], at: usize) -> usize
    ensures { left result out.new ≡ said_of (mode_name mode) out.old at }
{
    append::say(mode_name(mode), out, at)
}

// The loader has no name for a status that it does not give.
fn status_name(status: u8) -> Option<&'static [u8]>
    ensures { MatchOption result (decimal_of status ≡ status_name status) (λ name. name.now ≡ status_name status) }
{
    match status {
        0 => Some(b"OK"),
        Device::TARGET => Some(b"errTARGET"),
        Device::WRITE => Some(b"errWRITE"),
        Device::VENDOR => Some(b"errVENDOR"),
        Device::STALLED => Some(b"errSTALLEDPKT"),
        _ => None,
    }
}

// The status by its name, or by its number where the loader has no name for it.
#[tactic(auto, using(crate::proofs::Statuses::number_said))]
pub fn status(status: u8, out: &mut [u8], at: usize) -> usize
    ensures { left result out.new ≡ said_of (status_name status) out.old at }
{
    match status_name(status) {
        Some(name) => append::say(name, out, at),
        None => sentence::fill(b"#", &[status as usize], b"", out, at),
    }
}
