// What each action does to the work area, that is, on every board at once.
#![tactic(auto)]

ghost use Rattle.std.specs.Prelude.{◌≡◌, not, ◌&&◌, leb, ◌+◌, ◌-◌, ◌≤◌, ◌<◌, length, take, drop, replicate};
ghost use Rattle.laws.specs.Bytes.{put};
ghost use Rattle.laws.specs.Lists.{all_are};
ghost use Rattle.board.specs.Layout.{flash_pages, flash_bytes, flash_from, options_from, memory_bytes, defaults};
ghost use Rattle.board.specs.Memory.{part_from, part_bytes};
ghost use Rattle.board.specs.Sound.{Sound};
ghost use Rattle.protection.specs.Protection.{word_of, any_protected};
ghost use Rattle.request.specs.Request.{transfer_bytes};
ghost use Rattle.action.specs.Reach.{Fits};
ghost use Rattle.flash.specs.Flash.{blank, stored};
ghost use Rattle.marks.specs.Area.{work_bytes};
ghost use Rattle.marks.specs.Work.{work_of, valued, learnt};
ghost use Rattle.cells.specs.Cells.{sure_from, page_erased, pages_erased, flash_learnt, ram_learnt, worked, worked_of, writes};

use action::Action;
use board::Board;
use device::Device;

// Is each of `count` bytes from place `at` on known, but for those in write-protected pages?
fn is_sure(board: Board, work: &[u8], word: u32, at: usize, count: usize) -> bool
    requires { (at + count ≤ memory_bytes board) × (length work.now ≡ work_bytes board) }
    ensures { result ≡ sure_from board word count at (work_of board work.now) }
{
    (at..at + count).all(|i| marks::is_known(board, work, i) || flash::is_kept(board, word, i))
}

// `count` bytes from place `from` on become this value, and known.
#[tactic(auto, using(crate::proofs::Learning::filled_learnt))]
fn fill(board: Board, work: &mut [u8], from: usize, count: usize, value: u8)
    requires { (from + count ≤ memory_bytes board) × (length work.old ≡ work_bytes board) }
    ensures { work_of board work.new ≡ learnt from (replicate count value) (work_of board work.old) }
{
    let to = from + count;
    marks::fill(board, work, from, to, value);
    marks::learn(board, work, from, to);
}

// A page is erased on every board, unless it is write-protected.
#[tactic(auto, using(board::proofs::Pages::page_in_memory), unfolding(cells::specs::Cells::page_erased))]
fn erase(board: Board, work: &mut [u8], word: u32, page: usize)
    requires { Sound board × (length work.old ≡ work_bytes board) × (page < flash_pages board) }
    ensures { work_of board work.new ≡ page_erased board word page (work_of board work.old) }
{
    if !protection::write_protected(word, page) {
        fill(board, work, board.page_from(page), board.page_bytes(), 0xFF);
    }
}

// All of the flash is erased on every board.
#[tactic(auto, unfolding(cells::specs::Cells::flash_learnt))]
fn erase_flash(board: Board, work: &mut [u8])
    requires { Sound board × (length work.old ≡ work_bytes board) }
    ensures { work_of board work.new ≡ flash_learnt board (work_of board work.old) }
{
    fill(board, work, board.flash_from(), board.flash_bytes(), 0xFF);
}

// Every page is erased on every board, unless it is write-protected.
#[tactic(auto, using(crate::proofs::Erasing::pages_turn, crate::proofs::Erasing::pages_end_lem))]
fn erase_pages(board: Board, work: &mut [u8], word: u32)
    requires { Sound board × (length work.old ≡ work_bytes board) }
    ensures { work_of board work.new ≡ pages_erased board word (flash_pages board) 0 (work_of board work.old) }
{
    for page in 0..board.flash_pages() {
        erase(board, work, word, page);
    }
}

// The same; where no page is write-protected, in two long fills.
#[tactic(auto, using(crate::proofs::Opened::flash_erased_lem, marks::proofs::View::work_sized))]
fn erase_all(board: Board, work: &mut [u8], word: u32)
    requires { Sound board × (length work.old ≡ work_bytes board) }
    ensures { work_of board work.new ≡ pages_erased board word (flash_pages board) 0 (work_of board work.old) }
{
    if protection::any_protected(word, board.flash_pages()) {
        erase_pages(board, work, word);
    } else {
        erase_flash(board, work);
    }
}

// The first `count` bytes of the block become the values from place `at` on, but for those in write-protected pages.
fn store(board: Board, work: &mut [u8], word: u32, at: usize, count: usize)
    requires { (at + count ≤ memory_bytes board) × (count ≤ transfer_bytes) × (length work.old ≡ work_bytes board) }
    ensures { work_of board work.new ≡ valued (stored board word at (take count (work_of board work.old).block) (work_of board work.old).values) (work_of board work.old) }
{
    let values = marks::values_from(board);
    let block = marks::block_from(board);
    for i in 0..count {
        if !flash::is_kept(board, word, at + i) {
            work[values + (at + i)] = work[block + i];
        }
    }
}

// The same with no page write-protected.
fn copy(board: Board, work: &mut [u8], at: usize, count: usize)
    requires { (at + count ≤ memory_bytes board) × (count ≤ transfer_bytes) × (length work.old ≡ work_bytes board) }
    ensures { work_of board work.new ≡ valued (put at (take count (work_of board work.old).block) (work_of board work.old).values) (work_of board work.old) }
{
    let values = marks::values_from(board);
    let block = marks::block_from(board);
    work.copy_within(block..block + count, values + at);
}

// Do the bytes from place `at` up to place `end` lie in flash, and is no page write-protected?
fn is_open(board: Board, word: u32, at: usize, end: usize) -> bool
    requires { Sound board }
    ensures { result ≡ leb (flash_from board) at && leb end (flash_from board + flash_bytes board) && not (any_protected word (flash_pages board) 0) }
{
    let from = board.flash_from();
    from <= at
        && end <= from + board.flash_bytes()
        && !protection::any_protected(word, board.flash_pages())
}

// A write to flash that spares write-protected pages: on every board, or on some board an error.
#[tactic(auto, unfolding(cells::specs::Cells::surely))]
fn write_sparing(board: Board, work: &mut [u8], word: u32, at: usize, count: usize) -> u8
    requires { (at + count ≤ memory_bytes board) × (count ≤ transfer_bytes) × (length work.old ≡ work_bytes board) }
    ensures { worked result (work_of board work.new) ≡ writes board word at count (work_of board work.old) }
{
    let blank = flash::is_blank(board, marks::values(board, work), word, at, count);
    if !blank || !is_sure(board, work, word, at, count) {
        return Device::WRITE;
    }
    store(board, work, word, at, count);
    0
}

// The same; where no page is write-protected, none is asked for at each byte.
#[tactic(auto, using(crate::proofs::Opened::blank_there, crate::proofs::Opened::sure_there, crate::proofs::Opened::stored_there, marks::proofs::View::work_sized), unfolding(cells::specs::Cells::surely))]
fn write(board: Board, work: &mut [u8], word: u32, at: usize, count: usize) -> u8
    requires { Sound board × (at + count ≤ memory_bytes board) × (count ≤ transfer_bytes) × (length work.old ≡ work_bytes board) }
    ensures { worked result (work_of board work.new) ≡ writes board word at count (work_of board work.old) }
{
    let end = at + count;
    if !is_open(board, word, at, end) {
        return write_sparing(board, work, word, at, count);
    }
    let erased = compare::all_are(marks::values(board, work), at, end, 0xFF);
    if !erased || !marks::all_known(board, work, at, end) {
        return Device::WRITE;
    }
    copy(board, work, at, count);
    0
}

// A write to RAM or options.
#[tactic(auto, using(crate::proofs::Learning::block_learnt, marks::proofs::View::work_sized))]
fn keep(board: Board, work: &mut [u8], at: usize, count: usize)
    requires { (at + count ≤ memory_bytes board) × (count ≤ transfer_bytes) × (length work.old ≡ work_bytes board) }
    ensures { work_of board work.new ≡ learnt at (take count (work_of board work.old).block) (work_of board work.old) }
{
    copy(board, work, at, count);
    marks::learn(board, work, at, at + count);
}

// The RAM becomes zero and known, part by part.
#[tactic(auto, using(crate::proofs::Erasing::parts_turn, crate::proofs::Erasing::parts_end, crate::proofs::Erasing::parts_whole))]
fn clear_ram(board: Board, work: &mut [u8])
    requires { Sound board × (length work.old ≡ work_bytes board) }
    ensures { work_of board work.new ≡ ram_learnt board (work_of board work.old) }
{
    for part in 0..board.ram_parts() {
        fill(
            board,
            work,
            board.part_from(part),
            board.part_bytes(part),
            0,
        );
    }
}

// The default options, known.
#[tactic(auto, using(crate::proofs::Learning::options_learnt))]
fn reset_options(board: Board, work: &mut [u8])
    requires { Sound board × (length work.old ≡ work_bytes board) }
    ensures { work_of board work.new ≡ learnt (options_from board) defaults (work_of board work.old) }
{
    let defaults = Board::default_options();
    let from = board.options_from();
    marks::lay(board, work, from, &defaults);
    marks::learn(board, work, from, from + Board::OPTION_BYTES);
}

// Read unprotect of a protected board: all flash erased, RAM zero, and the default options.
fn unprotect(board: Board, work: &mut [u8])
    requires { Sound board × (length work.old ≡ work_bytes board) }
    ensures { work_of board work.new ≡ learnt (options_from board) defaults (ram_learnt board (flash_learnt board (work_of board work.old))) }
{
    erase_flash(board, work);
    clear_ram(board, work);
    reset_options(board, work);
}

// An action on every board; the answer is its status. `perform` has the same arms over one board's memory: a trait over
// both would want a method, a ghost word and a law for each of them, which is more than the match.
pub fn act(board: Board, action: Action, work: &mut [u8]) -> u8
    requires { Sound board × (length work.old ≡ work_bytes board) × Fits board action }
    ensures { worked result (work_of board work.new) ≡ worked_of board action (work_of board work.old) }
{
    let word = protection::protection_word(board, marks::values(board, work));
    match action {
        Action::Rest | Action::Point(_) => 0,
        Action::Fail(status) => status,
        Action::Erase(page) => {
            erase(board, work, word, page);
            0
        }
        Action::EraseAll => {
            erase_all(board, work, word);
            0
        }
        Action::Unprotect => {
            unprotect(board, work);
            0
        }
        Action::ClearRam => {
            clear_ram(board, work);
            0
        }
        Action::StoreFlash { at, count } => write(board, work, word, at, count as usize),
        Action::StoreRam { at, count } | Action::StoreOptions { at, count } => {
            keep(board, work, at, count as usize);
            0
        }
    }
}
