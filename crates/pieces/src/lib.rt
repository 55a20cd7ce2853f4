// Pieces of an image, laid where their addresses say: a bit for each flash byte tells which were given.
#![tactic(auto)]

ghost use Rattle.std.specs.Prelude.{◌≡◌, ◌*◌, ◌≤◌, length};
ghost use Rattle.board.specs.Layout.{flash_bytes};
ghost use Rattle.pieces.specs.Ways.{Placing};

use board::Board;
use refusal::Refusal;

// Lays bytes from an address on, and gives where the image ends then; or refuses, and lays none.
#[tactic(auto, using(board::proofs::Addresses::flash_ends))]
pub fn place(
    board: Board,
    address: u64,
    bytes: &[u8],
    end: usize,
    given: &mut [u8],
    image: &mut [u8],
) -> Result<usize, Refusal>
    requires { (flash_bytes board ≤ length given.old * 8) × (length image.old ≡ flash_bytes board) }
    ensures { Placing board address bytes.now end given.old image.old given.new image.new result }
{
    if bytes.is_empty() {
        return Ok(end);
    }
    if !board.in_flash(address, bytes.len() as u64) {
        return Err(Refusal::Outside);
    }
    let from = (address - board.flash_first() as u64) as usize;
    let to = from + bytes.len();
    if !bits::mark(given, from, to) {
        return Err(Refusal::Twice);
    }
    buffer::put(image, from, bytes);
    Ok(end.max(to))
}
