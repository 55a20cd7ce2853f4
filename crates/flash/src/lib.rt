// What commands do to the flash in a memory buffer, page by page, under write protection.
#![tactic(auto)]

ghost use Rattle.std.specs.Prelude.{◌≡◌, ◌+◌, ◌≤◌, ◌<◌, length};
ghost use Rattle.board.specs.Layout.{flash_pages, page_bytes, page_from, memory_bytes};
ghost use Rattle.board.specs.Sound.{Sound};
ghost use Rattle.flash.specs.Flash.{kept, blank, stored, erased, erased_all};

use board::Board;

// Is the byte at this place of the memory buffer, one of flash, in a write-protected page?
pub fn is_kept(board: Board, word: u32, place: usize) -> bool
    ensures { result ≡ kept board word place }
{
    protection::write_protected(word, board.page_at(place))
}

// Are `count` bytes from place `at` on erased, but for those in write-protected pages?
pub fn is_blank(board: Board, memory: &[u8], word: u32, at: usize, count: usize) -> bool
    requires { at + count ≤ length memory.now }
    ensures { result ≡ blank board word at count memory.now }
{
    (at..at + count).all(|i| memory[i] == 0xFF || is_kept(board, word, i))
}

// The bytes of `source` go over those from place `at` on, but for those in write-protected pages.
#[tactic(auto, using(crate::proofs::Flash::stored_open, crate::proofs::Flash::stored_kept, crate::proofs::Flash::stored_end))]
pub fn store(board: Board, memory: &mut [u8], word: u32, at: usize, source: &[u8])
    requires { at + length source.now ≤ length memory.old }
    ensures { memory.new ≡ stored board word at source.now memory.old }
{
    for i in 0..source.len() {
        if !is_kept(board, word, at + i) {
            memory[at + i] = source[i];
        }
    }
}

// A page is erased, unless it is write-protected.
#[tactic(auto, unfolding(laws::specs::Bytes::put, laws::specs::Bytes::filled, crate::specs::Flash::erased))]
pub fn erase(board: Board, memory: &mut [u8], word: u32, page: usize)
    requires { (page < flash_pages board) × (page_from board page + page_bytes board ≤ length memory.old) }
    ensures { memory.new ≡ erased board word page memory.old }
{
    if protection::write_protected(word, page) {
        return;
    }
    let from = board.page_from(page);
    memory[from..from + board.page_bytes()].fill(0xFF);
}

// Every page of the flash is erased, unless it is write-protected.
#[tactic(auto, using(crate::proofs::Flash::pages_turn, crate::proofs::Flash::pages_end_lem, board::proofs::Pages::page_in_memory), unfolding(crate::specs::Flash::erased_all))]
pub fn erase_all(board: Board, memory: &mut [u8], word: u32)
    requires { Sound board × (length memory.old ≡ memory_bytes board) }
    ensures { memory.new ≡ erased_all board word memory.old }
{
    for page in 0..board.flash_pages() {
        erase(board, memory, word, page);
    }
}
