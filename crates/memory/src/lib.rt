// What a read unprotect does to a memory buffer.
#![tactic(auto)]

ghost use Rattle.std.specs.Prelude.{◌≡◌, ◌+◌, ◌≤◌, length};
ghost use Rattle.laws.specs.Bytes.{filled};
ghost use Rattle.board.specs.Layout.{memory_bytes};
ghost use Rattle.board.specs.Memory.{part_from, part_bytes, ram_cleared, flash_erased, unprotected};
ghost use Rattle.board.specs.Sound.{Sound};

use board::Board;

// A part of the RAM becomes zero.
#[tactic(auto, unfolding(laws::specs::Bytes::put, laws::specs::Bytes::filled))]
fn clear_part(board: Board, memory: &mut [u8], part: usize)
    requires { part_from board part + part_bytes board part ≤ length memory.old }
    ensures { memory.new ≡ filled (part_from board part) (part_bytes board part) 0 memory.old }
{
    let from = board.part_from(part);
    memory[from..from + board.part_bytes(part)].fill(0);
}

// The RAM becomes zero, part by part.
#[tactic(auto, using(crate::proofs::Parts::parts_turn, crate::proofs::Parts::parts_end), unfolding(board::specs::Memory::ram_cleared))]
pub fn clear_ram(board: Board, memory: &mut [u8])
    requires { Sound board × (length memory.old ≡ memory_bytes board) }
    ensures { memory.new ≡ ram_cleared board memory.old }
{
    for part in 0..board.ram_parts() {
        clear_part(board, memory, part);
    }
}

// All flash erased, write-protected or not.
#[tactic(auto, unfolding(laws::specs::Bytes::put, laws::specs::Bytes::filled, board::specs::Memory::flash_erased))]
fn erase_flash(board: Board, memory: &mut [u8])
    requires { Sound board × (length memory.old ≡ memory_bytes board) }
    ensures { memory.new ≡ flash_erased board memory.old }
{
    let from = board.flash_from();
    memory[from..from + board.flash_bytes()].fill(0xFF);
}

// All flash erased, RAM zero, and the default options.
#[tactic(auto, unfolding(laws::specs::Bytes::put, board::specs::Memory::unprotected, board::specs::Memory::options_reset))]
pub fn unprotect(board: Board, memory: &mut [u8])
    requires { Sound board × (length memory.old ≡ memory_bytes board) }
    ensures { memory.new ≡ unprotected board memory.old }
{
    erase_flash(board, memory);
    clear_ram(board, memory);
    let from = board.options_from();
    memory[from..from + Board::OPTION_BYTES].copy_from_slice(&Board::default_options());
}
