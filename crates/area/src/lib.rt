// What each request does to the work area, that is, on every board at once: the device with which all boards go on, or
// none where the request falls, that is, fails on some board.
#![tactic(auto)]

ghost use Rattle.std.specs.Prelude.{◌≡◌, true, false, ◌*◌, ◌<◌, length, get_or};
ghost use Rattle.board.specs.Sound.{Sound};
ghost use Rattle.protection.specs.Protection.{read_protected};
ghost use Rattle.request.specs.Setup.{data_length};
ghost use Rattle.states.specs.WellFormed.{well_formed};
ghost use Rattle.command.specs.Command.{command_of};
ghost use Rattle.decision.specs.Decide.{decide_of, is_status};
ghost use Rattle.hexfield.specs.Hex.{all_digits, bytes_of};
ghost use Rattle.area.specs.Moved.{moved_as};
ghost use Rattle.action.specs.Action.{due_of};
ghost use Rattle.marks.specs.Area.{work_bytes};
ghost use Rattle.marks.specs.Work.{Work, work_of};
ghost use Rattle.cells.specs.Cells.{reports, status_moves, reads_moves, request_moves};

use access::Access;
use action::Action;
use board::Board;
use command::Command;
use decision::Decision;
use device::{Device, Ran};
use mode::Mode;
use request::Setup;

// Is reading and writing forbidden on every board?
fn read_protected(board: Board, work: &[u8]) -> bool
    requires { length work.now ≡ work_bytes board }
    ensures { result ≡ read_protected board (work_of board work.now).values }
{
    protection::read_protected(board, marks::values(board, work))
}

// The action that a request runs on every board, asked for before it runs.
pub fn due(board: Board, device: Device, setup: Setup, work: &[u8]) -> Action
    requires { length work.now ≡ work_bytes board }
    ensures { (k : Command) → result ≡ due_of board (read_protected board (work_of board work.now).values) device (decide_of device setup k) }
{
    let protected = read_protected(board, work);
    action::due(board, protected, device, setup)
}

// GETSTATUS: what is pending runs on every board.
#[tactic(auto, unfolding(cells::specs::Cells::status_moves, action::specs::Action::status_action))]
fn status(board: Board, device: Device, work: &mut [u8]) -> Option<Device>
    requires { Sound board × (length work.old ≡ work_bytes board) × (well_formed board device ≡ true) }
    ensures { moved_as result (work_of board work.new) ≡ status_moves board device (work_of board work.old) }
{
    if !device.waits() {
        return report(device, Action::Rest.ran(device.pointer, 0));
    }
    let protected = read_protected(board, work);
    let action = action::intend(board, protected, device);
    let status = acts::act(board, action, work);
    report(device, action.ran(device.pointer, status))
}

fn report(device: Device, ran: Ran) -> Option<Device>
    ensures { (w : Work) → moved_as result w ≡ reports device ran w }
{
    let told = device.report(ran);
    if told.status == 0 {
        Some(device.status(ran))
    } else {
        None
    }
}

// UPLOAD of memory: only whether the checks allow it can differ, and they do not look at flash or RAM.
#[tactic(auto, unfolding(cells::specs::Cells::reads_moves))]
fn upload(board: Board, device: Device, setup: Setup, work: &[u8]) -> Option<Device>
    requires { length work.now ≡ work_bytes board }
    ensures { moved_as result (work_of board work.now) ≡ reads_moves board device setup (work_of board work.now) }
{
    let protected = read_protected(board, work);
    match access::examine_block(board, protected, setup.value, setup.length, device.pointer) {
        Access::Denied(_) => None,
        Access::InFlash(_) | Access::InRam(_) | Access::InOptions(_) => {
            Some(device.enter(Mode::UploadIdle))
        }
    }
}

// The byte that two digits of a field spell, or 0 past its end.
#[tactic(auto, using(crate::proofs::Answers::field_past, hexfield::proofs::Fields::byte_of_lem, hexfield::proofs::Fields::digit_at))]
fn byte_in(field: &[u8], i: usize) -> u8
    requires { (i < 5) × (all_digits field.now ≡ true) }
    ensures { result ≡ get_or (bytes_of field.now) i 0 }
{
    if field.len() / 2 <= i {
        return 0;
    }
    digit::byte(field[i * 2], field[i * 2 + 1])
}

// The command that a field of data spells. Its five bytes are listed: a loop over them would want an invariant.
#[tactic(auto, unfolding(command::specs::Command::command_of))]
fn command(field: &[u8]) -> Command
    requires { all_digits field.now ≡ true }
    ensures { result ≡ command_of (bytes_of field.now) }
{
    let bytes = [
        byte_in(field, 0),
        byte_in(field, 1),
        byte_in(field, 2),
        byte_in(field, 3),
        byte_in(field, 4),
    ];
    Command::of(&bytes)
}

// A request on every board; `field` holds its data as digits. GETSTATUS is looked for first: it is the most frequent,
// and has no data.
#[tactic(auto, using(decision::proofs::Asking::only_status), unfolding(cells::specs::Cells::request_moves))]
pub fn request(
    board: Board,
    device: Device,
    setup: Setup,
    field: &[u8],
    work: &mut [u8],
) -> Option<Device>
    requires { Sound board × (length work.old ≡ work_bytes board) × (well_formed board device ≡ true) × (length field.now ≡ data_length setup * 2) × (all_digits field.now ≡ true) }
    ensures { moved_as result (work_of board work.new) ≡ request_moves board device setup (bytes_of field.now) (work_of board work.old) }
{
    if decision::asks_status(device, setup) {
        return status(board, device, work);
    }
    decided(board, device, setup, field, work)
}

// A request that does not come to Status.
#[tactic(auto, unfolding(cells::specs::Cells::request_moves))]
fn decided(
    board: Board,
    device: Device,
    setup: Setup,
    field: &[u8],
    work: &mut [u8],
) -> Option<Device>
    requires { (length work.old ≡ work_bytes board) × (length field.now ≡ data_length setup * 2) × (all_digits field.now ≡ true) × ((k : Command) → is_status (decide_of device setup k) ≡ false) }
    ensures { moved_as result (work_of board work.new) ≡ request_moves board device setup (bytes_of field.now) (work_of board work.old) }
{
    match decision::decide(device, setup, command(field)) {
        Decision::Silent | Decision::Stall(_) => None,
        Decision::Accept(next) | Decision::Commands { next, count: _ } => Some(next),
        Decision::Take(next) => {
            hexfield::decode(field, work, marks::block_from(board));
            Some(next)
        }
        Decision::Read => upload(board, device, setup, work),
        Decision::State => Some(device),
        // It was asked for before.
        Decision::Status => unreachable!(),
    }
}
