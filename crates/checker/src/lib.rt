// The job checker: it walks a job's text over the work area, event by event, and looks at the end.
#![tactic(auto)]

ghost use Rattle.std.specs.Prelude.{◌≡◌, true, false, ◌≤◌, ◌<◌, length, unwrap_or, IfSome};
ghost use Rattle.board.specs.Layout.{logger, flash_bytes, option_bytes, memory_bytes};
ghost use Rattle.board.specs.Memory.{options_of};
ghost use Rattle.board.specs.Sound.{Sound};
ghost use Rattle.device.specs.State.{started};
ghost use Rattle.states.specs.WellFormed.{well_formed};
ghost use Rattle.laws.specs.Lists.{same};
ghost use Rattle.text.specs.Text.{events_of};
ghost use Rattle.demand.specs.Verdict.{pages_end};
ghost use Rattle.checker.specs.Walk.{Ahead, Advanced, over_as, InPlace};
ghost use Rattle.verdict.specs.Report.{in_fields};
ghost use Rattle.marks.specs.Area.{work_bytes};
ghost use Rattle.marks.specs.Work.{work_of};
ghost use Rattle.demand.specs.Checked.{checkable, Checked};
ghost use Rattle.judgement.specs.Judgement.{over_of, suspect, lowest_from, end_number, end_verdict, begun, verdict_of};

use board::Board;
use device::Device;
use mode::Mode;
use refusal::Refusal;
use text::Item;
use verdict::Verdict;

// Can flash offset f be wrong on some board?
#[tactic(auto, unfolding(judgement::specs::Judgement::suspect))]
fn is_suspect(board: Board, image: &[u8], work: &[u8], f: usize) -> bool
    requires { Sound board × (length work.now ≡ work_bytes board) × (f < flash_bytes board) × (length image.now ≤ flash_bytes board) }
    ensures { result ≡ suspect board image.now (work_of board work.now) f }
{
    let place = board.flash_from() + f;
    let known = marks::is_known(board, work, place);
    let value = marks::value(board, work, place);
    if f < image.len() {
        !(known && value == image[f])
    } else if f < pages_end(board, image) {
        !(known && value == 0xFF)
    } else {
        known
    }
}

// The flash offset at which the image's last page ends.
#[tactic(auto, using(board::proofs::Pages::pages_fit, board::proofs::Pages::flash_is_pages))]
fn pages_end(board: Board, image: &[u8]) -> usize
    requires { Sound board × (length image.now ≤ flash_bytes board) }
    ensures { result ≡ pages_end board image.now }
{
    board.page_offset(board.pages_of(image))
}

// Does flash begin with the image, and is it erased from there up to offset `end`?
#[tactic(auto, using(crate::proofs::Right::in_place_is))]
fn is_laid(board: Board, memory: &[u8], image: &[u8], end: usize) -> bool
    requires { Sound board × (length memory.now ≡ memory_bytes board) × (length image.now ≤ end) × (end ≤ flash_bytes board) }
    ensures { result ≡ true → InPlace board memory.now image.now end }
{
    let flash = board.flash_from();
    let behind = flash + image.len();
    compare::same_bytes(&memory[flash..behind], image)
        && compare::all_are(memory, behind, flash + end, 0xFF)
}

// Do long comparisons show that no offset is suspect? Where they do not, only a search can tell.
#[tactic(auto, using(crate::proofs::Right::image_in_pages, crate::proofs::Right::pages_end_in_flash))]
fn is_right(board: Board, image: &[u8], work: &[u8]) -> bool
    requires { Sound board × (length work.now ≡ work_bytes board) × (length image.now ≤ flash_bytes board) }
    ensures { result ≡ true → flash_bytes board ≡ lowest_from (suspect board image.now (work_of board work.now)) (flash_bytes board) 0 }
{
    let flash = board.flash_from();
    let end = pages_end(board, image);
    is_laid(board, marks::values(board, work), image, end)
        && marks::all_known(board, work, flash, flash + end)
        && marks::none_known(board, work, flash + end, flash + board.flash_bytes())
}

// The lowest suspect offset.
fn search(board: Board, image: &[u8], work: &[u8]) -> Option<usize>
    requires { Sound board × (length work.now ≡ work_bytes board) × (length image.now ≤ flash_bytes board) }
    ensures { (unwrap_or result (flash_bytes board) ≡ lowest_from (suspect board image.now (work_of board work.now)) (flash_bytes board) 0) × IfSome result (λ f. f < flash_bytes board) }
{
    (0..board.flash_bytes()).find(|f| is_suspect(board, image, work, *f))
}

// The same; it searches only where something can be suspect.
fn first_suspect(board: Board, image: &[u8], work: &[u8]) -> Option<usize>
    requires { Sound board × (length work.now ≡ work_bytes board) × (length image.now ≤ flash_bytes board) }
    ensures { (unwrap_or result (flash_bytes board) ≡ lowest_from (suspect board image.now (work_of board work.now)) (flash_bytes board) 0) × IfSome result (λ f. f < flash_bytes board) }
{
    if is_right(board, image, work) {
        None
    } else {
        search(board, image, work)
    }
}

// Are the option bytes of a memory those of the card?
#[tactic(auto, using(board::proofs::Options::options_lent))]
fn has_card(board: Board, memory: &[u8], card: &[u8]) -> bool
    requires { Sound board × (length memory.now ≡ memory_bytes board) × (length card.now ≡ option_bytes) }
    ensures { result ≡ same (options_of board memory.now) card.now }
{
    let from = board.options_from();
    let to = from + Board::OPTION_BYTES;
    compare::same_bytes(&memory[from..to], card)
}

// The end conditions, then the flash.
#[tactic(auto, unfolding(judgement::specs::Judgement::end_verdict))]
fn finish(board: Board, device: Device, image: &[u8], card: &[u8], work: &[u8]) -> Verdict
    requires { Sound board × (length work.now ≡ work_bytes board) × (length image.now ≤ flash_bytes board) × (length card.now ≡ option_bytes) }
    ensures { result ≡ end_verdict board image.now card.now device (work_of board work.now) }
{
    let same = has_card(board, marks::values(board, work), card);
    if let Some(fault) = end_fault(board, device, same) {
        return Verdict::End(fault);
    }
    match first_suspect(board, image, work) {
        Some(f) => Verdict::Flash(f),
        None => Verdict::Pass,
    }
}

// The number of the first end condition that fails: has the board left, from the first address, with the same options?
#[tactic(auto, unfolding(judgement::specs::Judgement::end_number, judgement::specs::Judgement::lowest_from, demand::specs::Verdict::end_fails))]
fn end_fault(board: Board, device: Device, same: bool) -> Option<u8>
    ensures { (unwrap_or result 4 ≡ end_number board device same) × IfSome result (λ c. c < 4) }
{
    if device.mode != Mode::Left {
        Some(1)
    } else if device.pointer != board.flash_first() {
        Some(2)
    } else if !same {
        Some(3)
    } else {
        None
    }
}

// How far an event of a job brings all boards; `behind` is where the line after it begins.
#[derive(Clone, Copy)]
struct Onward {
    device: Device,
    behind: usize,
}

// The event whose line begins at place `at`, on every board; none where it falls.
fn advance(board: Board, device: Device, job: &[u8], at: usize, work: &mut [u8]) -> Option<Onward>
    requires { Sound board × (length work.old ≡ work_bytes board) × (well_formed board device ≡ true) × Ahead job.now at × (at < length job.now) }
    ensures { Advanced board job.now at device (work_of board work.old) result (work_of board work.new) }
{
    match text::event_at(job, at) {
        // The text is well formed from there on.
        Item::End | Item::Bad => unreachable!(),
        Item::Attach { next } => Some(Onward {
            device: device.attach(board),
            behind: next,
        }),
        Item::Request { setup, data, next } => {
            let device = area::request(board, device, setup, &job[data..next - 1], work)?;
            Some(Onward {
                device,
                behind: next,
            })
        }
    }
}

// The events of a job in turn: the state of all boards behind them, or the number of the first that fails. Each begins
// where the line before it ended, so that no range counts them.
fn run(board: Board, job: &[u8], work: &mut [u8]) -> Result<Device, usize>
    requires { Sound board × (length work.old ≡ work_bytes board) × Ahead job.now 0 }
    ensures { over_as result (work_of board work.new) ≡ over_of board (events_of job.now) (started board) (work_of board work.old) 0 }
{
    let mut device = Device::start(board);
    let mut at = 0;
    let mut events: usize = 0;
    while at < job.len() {
        events += 1;
        let onward = advance(board, device, job, at, work).ok_or(events)?;
        device = onward.device;
        at = onward.behind;
    }
    Ok(device)
}

// The options are known from the start, and nothing else.
#[tactic(auto, using(crate::proofs::Beginning::begin_is))]
fn begin(board: Board, card: &[u8], work: &mut [u8])
    requires { Sound board × (length work.old ≡ work_bytes board) × (length card.now ≡ option_bytes) }
    ensures { work_of board work.new ≡ begun board card.now (work_of board work.old) }
{
    let options = board.options_from();
    marks::forget(board, work);
    marks::lay(board, work, options, card);
    marks::learn(board, work, options, options + Board::OPTION_BYTES);
}

// The verdict of a job that is well formed.
fn judge(board: Board, job: &[u8], image: &[u8], card: &[u8], work: &mut [u8]) -> Verdict
    requires { Sound board × (length work.old ≡ work_bytes board) × Ahead job.now 0 × (length image.now ≤ flash_bytes board) × (length card.now ≡ option_bytes) }
    ensures { result ≡ verdict_of board (events_of job.now) image.now card.now (work_of board work.old) }
{
    begin(board, card, work);
    match run(board, job, work) {
        Ok(device) => finish(board, device, image, card, work),
        Err(event) => Verdict::Event(event),
    }
}

// The refusals of a check, in their order.
fn admit(board: Board, job: &[u8], image: usize, card: usize, work: usize) -> Result<(), Refusal>
    ensures { result ≡ checkable board job.now image card work }
{
    if work != marks::work_bytes(board) {
        return Err(Refusal::Work);
    }
    board.supplied(image, card)?;
    job::measure(job)?;
    Ok(())
}

// Checks a job: does every board with this card, whatever its flash and RAM hold, end up with the image?
pub fn check(job: &[u8], image: &[u8], card: &[u8], work: &mut [u8]) -> Verdict
    ensures { Checked logger job.now image.now card.now work.old (in_fields result) work.new }
{
    let board = Board::LOGGER;
    match admit(board, job, image.len(), card.len(), work.len()) {
        Ok(()) => judge(board, job, image, card, work),
        Err(why) => Verdict::Refused(why),
    }
}
