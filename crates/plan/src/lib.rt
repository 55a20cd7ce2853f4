// The plan writer: the job that puts an image on a board.
#![tactic(auto)]

ghost use Rattle.std.specs.Prelude.{◌≡◌, ◌∷◌, ◌+◌, ◌-◌, ◌≤◌, ◌<◌, length};
ghost use Rattle.std.proofs.lemmas.List.Edits.{sets};
ghost use Rattle.laws.specs.Bytes.{put};
ghost use Rattle.board.specs.Layout.{logger, flash_bytes, pages_of};
ghost use Rattle.board.specs.Sound.{Sound};
ghost use Rattle.line.specs.Event.{request, line_of};
ghost use Rattle.refusal.specs.Delivery.{delivery};
ghost use Rattle.request.specs.Request.{transfer_bytes};
ghost use Rattle.request.specs.Spelled.{four};
ghost use Rattle.plan.specs.Plan.{download, get_status, padded, plan_of, barred, planned};
ghost use Rattle.plan.specs.Parts.{polled_text, page_text, leaving_text, Laid, status_line_bytes, sent_bytes, leaving_bytes, padded_length, page_lines};

use board::Board;
use refusal::Refusal;
use request::Setup;

// The command bytes of a DNLOAD with wValue 0: set pointer and erase page.
const POINT: u8 = 0x21;

const ERASE: u8 = 0x41;

// The bytes of a setup, and of the longest DNLOAD: a page fits in a transfer on every sound board.
const SETUP_BYTES: usize = 8;

const BLOCK_BYTES: usize = SETUP_BYTES + Setup::TRANSFER as usize;

// How long the lines of a page are without the digits of its bytes, and the lines behind the last page.
const PAGE_LINES: usize = 200;

const END_LINES: usize = 110;

// How long the logger's longest plan is, for who lends an array of that size.
pub const LOGGER_JOB: usize = Board::LOGGER_PAGES * PAGE_LINES
    + Board::LOGGER_FLASH * 2
    + END_LINES;

// Does the card keep the image from being written?
#[tactic(auto, unfolding(crate::specs::Plan::barred))]
fn barred(board: Board, image: &[u8], card: &[u8]) -> bool
    ensures { result ≡ barred board image.now card.now }
{
    protection::locked(card, 0)
        || protection::any_protected(protection::word(board, card, 0), board.pages_of(image))
}

// How many bytes a block of so many bytes of the image has: a single one gets a second.
#[tactic(auto, unfolding(crate::specs::Parts::padded_length))]
fn padded_length(count: usize) -> usize
    ensures { result ≡ padded_length count }
{
    if count == 1 { 2 } else { count }
}

// How long the plan is.
#[tactic(auto, using(crate::proofs::Length::image_small, crate::proofs::Length::size_one))]
fn size(board: Board, image: &[u8]) -> usize
    requires { Sound board × (length image.now ≤ flash_bytes board) }
    ensures { result ≡ length (plan_of board image.now) }
{
    let lines = board.pages_of(image) * PAGE_LINES + END_LINES;
    // the last page has a single byte, which gets a second
    if board.page_rest(image.len()) == 1 {
        return lines + (image.len() + 1) * 2;
    }
    lines + image.len() * 2
}

// Writes the line of GETSTATUS into `out` from place `at` on, and gives the place behind it.
fn poll(out: &mut [u8], at: usize) -> usize
    requires { at + status_line_bytes ≤ length out.old }
    ensures { Laid out.old at (line_of get_status) status_line_bytes out.new result }
{
    let setup = [0xA1, 3, 0, 0, 0, 0, 6, 0];
    at + line::write_request(&setup, out, at)
}

// Writes the line of a request and of two GETSTATUS after it, and gives the place behind them.
fn send(bytes: &[u8], out: &mut [u8], at: usize) -> usize
    requires { (8 ≤ length bytes.now) × (at + sent_bytes (length bytes.now - 8) ≤ length out.old) }
    ensures { Laid out.old at (polled_text (request bytes.now)) (sent_bytes (length bytes.now - 8)) out.new result }
{
    let first = at + line::write_request(bytes, out, at);
    let second = poll(out, first);
    poll(out, second)
}

// Writes a command for an address: a DNLOAD of its byte and of the address, low byte first, and two GETSTATUS.
fn command(code: u8, address: u32, out: &mut [u8], at: usize) -> usize
    requires { at + sent_bytes 5 ≤ length out.old }
    ensures { Laid out.old at (polled_text (download 0 (code ∷ four address))) (sent_bytes 5) out.new result }
{
    let [b0, b1, b2, b3] = address.to_le_bytes();
    let bytes = [0x21, 1, 0, 0, 0, 0, 5, 0, code, b0, b1, b2, b3];
    send(&bytes, out, at)
}

// Writes some bytes of the image: a DNLOAD with wValue 2, and two GETSTATUS.
fn block(bytes: &[u8], out: &mut [u8], at: usize) -> usize
    requires { (length bytes.now ≤ transfer_bytes) × (at + sent_bytes (padded_length (length bytes.now)) ≤ length out.old) }
    ensures { Laid out.old at (polled_text (download 2 (padded bytes.now))) (sent_bytes (padded_length (length bytes.now))) out.new result }
{
    let count = padded_length(bytes.len());
    let [low, high, ..] = count.to_le_bytes();
    let setup = [0x21, 1, 2, 0, 0, 0, low, high];
    // so that what pads a single byte stands here from the start
    let mut request = [0xFFu8; BLOCK_BYTES];
    buffer::put(&mut request, 0, &setup);
    buffer::put(&mut request, SETUP_BYTES, bytes);
    send(&request[0..SETUP_BYTES + count], out, at)
}

// Writes the lines of one page: it is erased, pointed to and written.
fn page(board: Board, image: &[u8], page: usize, out: &mut [u8], at: usize) -> usize
    requires { Sound board × (length image.now ≤ flash_bytes board) × (page < pages_of board (length image.now)) × (at + page_lines board image.now page ≤ length out.old) }
    ensures { Laid out.old at (page_text board image.now page) (page_lines board image.now page) out.new result }
{
    let from = board.page_offset(page);
    let end = (from + board.page_bytes()).min(image.len());
    let address = board.flash_first() + from as u32;
    let erased = command(ERASE, address, out, at);
    let pointed = command(POINT, address, out, erased);
    block(&image[from..end], out, pointed)
}

// Writes the lines behind the last page: the pointer goes back to the start of flash, and the board leaves.
fn leave(board: Board, out: &mut [u8], at: usize)
    requires { at + leaving_bytes ≤ length out.old }
    ensures { out.new ≡ sets out.old at (leaving_text board) }
{
    let pointed = command(POINT, board.flash_first(), out, at);
    let setup = [0x21, 1, 0, 0, 0, 0, 0, 0];
    let left = pointed + line::write_request(&setup, out, pointed);
    poll(out, left);
}

// Writes the plan to the front of `out`.
fn write(board: Board, image: &[u8], out: &mut [u8])
    requires { Sound board × (length image.now ≤ flash_bytes board) × (length (plan_of board image.now) ≤ length out.old) }
    ensures { out.new ≡ put 0 (plan_of board image.now) out.old }
{
    let count = board.pages_of(image);
    let mut at = 0;
    for number in 0..count {
        at = page(board, image, number, out, at);
    }
    leave(board, out, at);
}

// Writes the plan of an image for a board with this card.
fn plan_for(board: Board, image: &[u8], card: &[u8], out: &mut [u8]) -> Result<usize, Refusal>
    requires { Sound board }
    ensures { delivery result out.new ≡ planned board image.now card.now out.old }
{
    board.supplied(image.len(), card.len())?;
    if barred(board, image, card) {
        return Err(Refusal::Protected);
    }
    let bytes = size(board, image);
    if out.len() < bytes {
        return Err(Refusal::Output);
    }
    write(board, image, out);
    Ok(bytes)
}

// Writes the plan of an image to the front of `out`, for a board with this card.
pub fn plan(image: &[u8], card: &[u8], out: &mut [u8]) -> Result<usize, Refusal>
    ensures { delivery result out.new ≡ planned logger image.now card.now out.old }
{
    plan_for(Board::LOGGER, image, card, out)
}
