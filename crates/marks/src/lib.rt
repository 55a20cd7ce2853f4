// The work area: a value and a mark for each byte of memory, and the block that waits to be written. A mark says that
// every board is known to hold the value. What a mark is, and where the three stand, is known here alone.
//
// Board and work area are handed on side by side. In a struct with a ghost field for the length, tried, each function
// that writes has to promise besides that the struct keeps its board and its reference: two clauses for one premise.
#![tactic(auto)]

ghost use Rattle.std.specs.Prelude.{◌≡◌, ◌+◌, ◌-◌, ◌≤◌, ◌<◌, length, get_or};
ghost use Rattle.laws.specs.Bytes.{put, filled};
ghost use Rattle.board.specs.Layout.{memory_bytes};
ghost use Rattle.marks.specs.Area.{work_bytes};
ghost use Rattle.marks.specs.Work.{values_from, marks_from, block_from, work_of, known, valued, marked, knowing, forgotten, all_known, none_known};

use board::Board;
use request::Setup;

// The mark of a byte that is known, and of one that is not.
const KNOWN: u8 = 1;

const UNKNOWN: u8 = 0;

// How long the logger's work area is, for who lends an array of that size.
pub const LOGGER_WORK: usize = 2 * Board::LOGGER_MEMORY + Setup::TRANSFER as usize;

// Where the values stand in the work area.
#[tactic(auto, unfolding(crate::specs::Work::values_from))]
pub fn values_from(board: Board) -> usize
    ensures { result ≡ values_from board }
{
    0
}

#[tactic(auto, unfolding(crate::specs::Work::marks_from))]
fn marks_from(board: Board) -> usize
    ensures { result ≡ marks_from board }
{
    board.memory_bytes()
}

// Where the block stands.
#[tactic(auto, unfolding(crate::specs::Work::block_from))]
pub fn block_from(board: Board) -> usize
    ensures { result ≡ block_from board }
{
    board.memory_bytes() * 2
}

// How long a work area is.
pub fn work_bytes(board: Board) -> usize
    ensures { result ≡ work_bytes board }
{
    board.memory_bytes() * 2 + Setup::TRANSFER as usize
}

// The values, one for each byte of memory.
#[tactic(auto, unfolding(crate::specs::Work::values_from, crate::specs::Work::work_of))]
pub fn values(board: Board, work: &[u8]) -> &[u8]
    requires { length work.now ≡ work_bytes board }
    ensures { (result.now ≡ (work_of board work.now).values) × (length result.now ≡ memory_bytes board) }
{
    let from = values_from(board);
    &work[from..from + board.memory_bytes()]
}

// The marks, one for each value.
#[tactic(auto, unfolding(crate::specs::Work::marks_from, crate::specs::Work::work_of))]
fn marks(board: Board, work: &[u8]) -> &[u8]
    requires { length work.now ≡ work_bytes board }
    ensures { (result.now ≡ (work_of board work.now).marks) × (length result.now ≡ memory_bytes board) }
{
    let from = marks_from(board);
    &work[from..from + board.memory_bytes()]
}

// The value of the byte at place i.
pub fn value(board: Board, work: &[u8], i: usize) -> u8
    requires { (i < memory_bytes board) × (length work.now ≡ work_bytes board) }
    ensures { result ≡ get_or (work_of board work.now).values i 0 }
{
    values(board, work)[i]
}

// The values from place `from` up to place `to` become this one.
#[tactic(auto, using(crate::proofs::Doors::fill_is), unfolding(crate::specs::Work::values_from))]
pub fn fill(board: Board, work: &mut [u8], from: usize, to: usize, value: u8)
    requires { (from ≤ to) × (to ≤ memory_bytes board) × (length work.old ≡ work_bytes board) }
    ensures { work_of board work.new ≡ valued (filled from (to - from) value (work_of board work.old).values) (work_of board work.old) }
{
    let values = values_from(board);
    buffer::fill(work, values + from, values + to, value);
}

// The bytes of `source` become the values from place `at` on.
#[tactic(auto, using(crate::proofs::Doors::lay_is), unfolding(crate::specs::Work::values_from))]
pub fn lay(board: Board, work: &mut [u8], at: usize, source: &[u8])
    requires { (at + length source.now ≤ memory_bytes board) × (length work.old ≡ work_bytes board) }
    ensures { work_of board work.new ≡ valued (put at source.now (work_of board work.old).values) (work_of board work.old) }
{
    let values = values_from(board);
    buffer::put(work, values + at, source);
}

// The marks from place `from` up to place `to` become this one.
#[tactic(auto, using(crate::proofs::Doors::mark_is), unfolding(crate::specs::Work::marks_from))]
fn mark(board: Board, work: &mut [u8], from: usize, to: usize, mark: u8)
    requires { (from ≤ to) × (to ≤ memory_bytes board) × (length work.old ≡ work_bytes board) }
    ensures { work_of board work.new ≡ marked (filled from (to - from) mark (work_of board work.old).marks) (work_of board work.old) }
{
    let marks = marks_from(board);
    buffer::fill(work, marks + from, marks + to, mark);
}

// The bytes from place `from` up to place `to` become known.
#[tactic(auto, unfolding(crate::specs::Work::knowing, crate::specs::Work::known_mark))]
pub fn learn(board: Board, work: &mut [u8], from: usize, to: usize)
    requires { (from ≤ to) × (to ≤ memory_bytes board) × (length work.old ≡ work_bytes board) }
    ensures { work_of board work.new ≡ knowing from (to - from) (work_of board work.old) }
{
    mark(board, work, from, to, KNOWN);
}

// No byte is known any more.
#[tactic(auto, unfolding(crate::specs::Work::forgotten))]
pub fn forget(board: Board, work: &mut [u8])
    requires { length work.old ≡ work_bytes board }
    ensures { work_of board work.new ≡ forgotten board (work_of board work.old) }
{
    mark(board, work, 0, board.memory_bytes(), UNKNOWN);
}

// Is the byte at place i known?
#[tactic(auto, unfolding(crate::specs::Work::known, crate::specs::Work::known_mark))]
pub fn is_known(board: Board, work: &[u8], i: usize) -> bool
    requires { (i < memory_bytes board) × (length work.now ≡ work_bytes board) }
    ensures { result ≡ known (work_of board work.now) i }
{
    marks(board, work)[i] == KNOWN
}

// Is each byte from place `from` up to place `to` known?
#[tactic(auto, unfolding(crate::specs::Work::all_known, crate::specs::Work::known_mark))]
pub fn all_known(board: Board, work: &[u8], from: usize, to: usize) -> bool
    requires { (from ≤ to) × (to ≤ memory_bytes board) × (length work.now ≡ work_bytes board) }
    ensures { result ≡ all_known from (to - from) (work_of board work.now) }
{
    compare::all_are(marks(board, work), from, to, KNOWN)
}

// Is none of them known?
#[tactic(auto, unfolding(crate::specs::Work::none_known))]
pub fn none_known(board: Board, work: &[u8], from: usize, to: usize) -> bool
    requires { (from ≤ to) × (to ≤ memory_bytes board) × (length work.now ≡ work_bytes board) }
    ensures { result ≡ none_known from (to - from) (work_of board work.now) }
{
    compare::all_are(marks(board, work), from, to, UNKNOWN)
}
