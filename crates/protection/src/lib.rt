// What the option bytes protect: reading and writing as a whole, and each page by its bit.
#![tactic(auto)]

ghost use Rattle.std.specs.Prelude.{◌≡◌};
ghost use Rattle.protection.specs.Protection.{locked_from, word_from, write_protected, any_protected, option_of, word_of, read_protected};

use board::Board;

// Do the option bytes that begin at place `from` forbid reading and writing?
#[tactic(auto, unfolding(crate::specs::Protection::locked_from))]
pub fn locked(bytes: &[u8], from: u32) -> bool
    ensures { result ≡ locked_from from bytes.now }
{
    buffer::byte_at(bytes, from as usize) != 0xAA
}

// Is reading and writing of the board's memory forbidden?
#[tactic(auto, unfolding(crate::specs::Protection::read_protected))]
pub fn read_protected(board: Board, memory: &[u8]) -> bool
    ensures { result ≡ read_protected board memory.now }
{
    locked(memory, board.options_from() as u32)
}

// The two option bytes that hold a bit a page, as one number; the option bytes begin at place `from`.
#[tactic(auto, unfolding(crate::specs::Protection::word_from))]
pub fn word(board: Board, bytes: &[u8], from: u32) -> u32
    ensures { result ≡ word_from board from bytes.now }
{
    u16::from_le_bytes(buffer::bytes_at(bytes, from as usize + 8)) as u32
}

// The protection word of the board's memory.
#[tactic(auto, unfolding(crate::specs::Protection::word_of))]
pub fn protection_word(board: Board, memory: &[u8]) -> u32
    ensures { result ≡ word_of board memory.now }
{
    word(board, memory, board.options_from() as u32)
}

// Is the page's bit clear in the protection word? A page that has no bit there is protected.
#[tactic(auto, using(crate::proofs::Protection::protected_past), unfolding(crate::specs::Protection::write_protected))]
pub fn write_protected(word: u32, page: usize) -> bool
    ensures { result ≡ write_protected word page }
{
    32 <= page || (word >> page) & 1 == 0
}

// Is one of the first `count` pages write-protected?
pub fn any_protected(word: u32, count: usize) -> bool
    ensures { result ≡ any_protected word count 0 }
{
    (0..count).any(|page| write_protected(word, page))
}

// The option byte that holds the page's bit.
pub fn option_of(board: Board, page: usize) -> usize
    ensures { result ≡ option_of board page }
{
    8 + page / 8 % 2
}
