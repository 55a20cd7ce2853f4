// What a span of addresses may be used for: the address of a block, and the checks that a read and a write share.
#![tactic(auto)]

ghost use Rattle.std.specs.Prelude.{◌≡◌, cond, ltb};
ghost use Rattle.request.specs.Request.{transfer_bytes};
ghost use Rattle.mode.specs.Wire.{err_target};
ghost use Rattle.access.specs.Access.{block_address, options_at, access_of, block_access};

use board::{Board, Place};
use device::Device;
use request::Setup;

// What a span may be used for, with its place in the memory buffer. No Result with the status as its error: to be
// denied is one of four answers of one rule, which callers take apart at once and never hand on.
#[derive(Clone, Copy)]
pub enum Access {
    Denied(u8),
    InFlash(usize),
    InRam(usize),
    InOptions(usize),
}

// The address of a block: whole transfers lie before it, however long it is itself.
#[tactic(auto, unfolding(crate::specs::Access::block_address))]
pub fn block_address(block: u16, pointer: u32) -> u64
    ensures { result ≡ block_address transfer_bytes block pointer }
{
    block.saturating_sub(2) as u64 * Setup::TRANSFER as u64 + pointer as u64
}

// The checks that a read and a write share, in their order.
#[tactic(auto, unfolding(crate::specs::Access::access_of))]
fn examine(board: Board, protected: bool, address: u64, count: u16) -> Access
    ensures { result ≡ access_of board protected address count }
{
    if protected {
        return Access::Denied(Device::VENDOR);
    }
    match board.place(address, count as u64) {
        Place::Flash(at) => at_least_two(count, Access::InFlash(at)),
        Place::Ram(at) => at_least_two(count, Access::InRam(at)),
        Place::Options(at) => all_options(board, at, count),
        Place::Outside => Access::Denied(Device::TARGET),
    }
}

// What the block with this number and length may be used for: one rule for reads and writes.
#[tactic(auto, unfolding(crate::specs::Access::block_access))]
pub fn examine_block(board: Board, protected: bool, block: u16, count: u16, pointer: u32) -> Access
    ensures { result ≡ block_access board protected block count pointer }
{
    examine(board, protected, block_address(block, pointer), count)
}

// Flash and RAM are used by two bytes or more.
fn at_least_two(count: u16, access: Access) -> Access
    ensures { result ≡ cond (ltb count 2) (Access.Denied err_target) access }
{
    if count < 2 {
        Access::Denied(Device::TARGET)
    } else {
        access
    }
}

// Options are used all at once.
fn all_options(board: Board, at: usize, count: u16) -> Access
    ensures { result ≡ options_at board at count }
{
    if at == board.options_from() && count as usize == Board::OPTION_BYTES {
        return Access::InOptions(at);
    }
    Access::Denied(Device::TARGET)
}
