// What an action does to memory: the one room in which a loader's memory changes, whichever way its host came.
#![tactic(auto)]

ghost use Rattle.std.specs.Prelude.{◌≡◌, ◌+◌, ◌≤◌, length};
ghost use Rattle.board.specs.Layout.{memory_bytes};
ghost use Rattle.board.specs.Sound.{Sound};
ghost use Rattle.action.specs.Action.{writes_of};
ghost use Rattle.action.specs.Reach.{Fits};
ghost use Rattle.perform.specs.Perform.{performed, performed_of, written_of};

use action::Action;
use board::Board;
use device::Device;

// An action on memory; the answer is its status.
#[tactic(auto, using(board::proofs::Pages::page_in_memory), unfolding(laws::specs::Bytes::put))]
pub fn perform(board: Board, action: Action, memory: &mut [u8], block: &[u8]) -> u8
    requires { Sound board × (length memory.old ≡ memory_bytes board) × Fits board action × ((writes_of action).count ≤ length block.now) }
    ensures { performed result memory.new ≡ performed_of board action block.now memory.old }
{
    let word = protection::protection_word(board, memory);
    match action {
        Action::Rest | Action::Point(_) => 0,
        Action::Fail(status) => status,
        Action::Erase(page) => {
            flash::erase(board, memory, word, page);
            0
        }
        Action::EraseAll => {
            flash::erase_all(board, memory, word);
            0
        }
        Action::Unprotect => {
            memory::unprotect(board, memory);
            0
        }
        Action::ClearRam => {
            memory::clear_ram(board, memory);
            0
        }
        Action::StoreFlash { at, count } => {
            write(board, memory, word, at, &block[..count as usize])
        }
        Action::StoreRam { at, count } | Action::StoreOptions { at, count } => {
            let count = count as usize;
            memory[at..at + count].copy_from_slice(&block[..count]);
            0
        }
    }
}

// A write to flash: tested once, stored once.
fn write(board: Board, memory: &mut [u8], word: u32, at: usize, source: &[u8]) -> u8
    requires { at + length source.now ≤ length memory.old }
    ensures { performed result memory.new ≡ written_of board word at source.now memory.old }
{
    if !flash::is_blank(board, memory, word, at, source.len()) {
        return Device::WRITE;
    }
    flash::store(board, memory, word, at, source);
    0
}
