// A single board that lives through a job, for the programs that explain a verdict.
//
// Where an event fails on some board, it fails on the one whose flash and RAM are all zero, and no event before it
// does: this is the board by which the checker's proof shows that a rejected job is rightly rejected. Whatever a job
// does to a byte of flash changes it there, for it erases it first.
#![tactic(auto)]

ghost use Rattle.std.specs.Prelude.{◌≡◌, cond, ◌+◌, ◌-◌, ◌≤◌, length, drop, get_or};
ghost use Rattle.board.specs.Layout.{logger, memory_bytes};
ghost use Rattle.packed.specs.Ways.{piece_length};
ghost use Rattle.trial.specs.Trial.{flash_place, leaving_of, unplayed, next_of, life, turn_of, lives_of, first_written, target_of, surveyed, equipped, trial_of};

use board::{Board, Place};
use device::{Device, Pending};
use mode::Mode;
use request::Setup;

const TRANSFER: usize = Setup::TRANSFER as usize;

// The board after `count` events, the next of which is at place `at` of the packed job. An event's number is the number
// of its line, and 0 stands for no line. No Option: these numbers are compared and printed, and nothing else.
//
// `byte` is the byte that is watched; the last line that changed it, and the one before that which did; the last line
// that moved the pointer, and the last by which the loader leaves, or stays after all. Then, of the memory: is it
// read-protected; `dirt`, the first place whose byte is neither erased nor in a write-protected page, from where the
// write that waits begins in flash, or from the front where none waits; and the first option byte that is not the
// card's.
#[derive(Clone, Copy)]
pub struct Scene {
    pub device: Device,
    pub count: usize,
    pub at: usize,
    pub byte: u8,
    pub changed: usize,
    pub earlier: usize,
    pub pointed: usize,
    pub left: usize,
    pub is_protected: bool,
    pub dirt: usize,
    pub altered: usize,
}

// A board whose flash and RAM are all `old`, with the options of the card.
#[tactic(auto, unfolding(crate::specs::Trial::equipped, laws::specs::Bytes::put, laws::specs::Bytes::filled))]
fn equip(memory: &mut [u8], old: u8, card: &[u8])
    requires { length memory.old ≡ memory_bytes logger }
    ensures { memory.new ≡ equipped old card.now memory.old }
{
    if card.len() != Board::OPTION_BYTES {
        return;
    }
    memory[..Board::LOGGER.memory_bytes()].fill(old);
    let options = Board::LOGGER.options_from();
    memory[options..options + Board::OPTION_BYTES].copy_from_slice(card);
}

// Is the loader about to leave, or has it left?
fn is_leaving(mode: Mode) -> bool
    ensures { leaving_of mode ≡ cond result 1 0 }
{
    matches!(mode, Mode::ManifestSync | Mode::Left)
}

fn latest(is_same: bool, last: usize, line: usize) -> usize
    ensures { result ≡ cond is_same last line }
{
    if is_same { last } else { line }
}

// Nothing has happened yet.
fn first(byte: u8) -> Scene
    ensures { result ≡ unplayed byte }
{
    Scene {
        device: Device::start(Board::LOGGER),
        count: 0,
        at: 0,
        byte,
        changed: 0,
        earlier: 0,
        pointed: 0,
        left: 0,
        is_protected: false,
        dirt: 0,
        altered: 0,
    }
}

// The event in this line, up to place `at` of the job, leaves the device and the byte so.
fn next(scene: Scene, line: usize, at: usize, device: Device, byte: u8) -> Scene
    ensures { result ≡ next_of scene line at device byte }
{
    let before = scene.device;
    let stays = byte == scene.byte;
    let as_before = is_leaving(before.mode) == is_leaving(device.mode);
    Scene {
        device,
        count: line,
        at,
        byte,
        changed: latest(stays, scene.changed, line),
        earlier: latest(stays, scene.earlier, scene.changed),
        pointed: latest(before.pointer == device.pointer, scene.pointed, line),
        left: latest(as_before, scene.left, line),
        ..scene
    }
}

// The place behind the event at place `at` of the job, or `at` itself where there is none.
#[tactic(auto, using(packed::proofs::PieceLength::piece_within))]
fn behind(packed: &[u8], at: usize) -> usize
    requires { at ≤ length packed.now }
    ensures { (result ≡ at + piece_length (drop at packed.now)) × (result ≤ length packed.now) }
{
    at + packed::piece_length(&packed[at..]).unwrap_or(0)
}

// The event in this line happens; the byte at `place` is watched.
#[tactic(auto, unfolding(crate::specs::Trial::turn_of))]
fn turn(
    scene: Scene,
    line: usize,
    packed: &[u8],
    place: usize,
    memory: &mut [u8],
    block: &mut [u8],
    reply: &mut [u8],
) -> Scene
    requires { scene.at ≤ length packed.now }
    ensures { (life result memory.new block.new reply.new ≡ turn_of packed.now place line (life scene memory.old block.old reply.old)) × (result.at ≤ length packed.now) }
{
    let at = scene.at;
    let end = behind(packed, at);
    let stepped = player::step(scene.device, &packed[at..end], memory, block, reply);
    let byte = buffer::byte_at(memory, place);
    next(scene, line, end, stepped.device, byte)
}

// The first `events` events of a job, or all where there are not so many, on the board with this memory.
#[tactic(auto, using(crate::proofs::Turns::lives_start, crate::proofs::Turns::lives_turn, crate::proofs::Turns::lives_over, crate::proofs::Turns::lives_end))]
fn live(
    packed: &[u8],
    events: usize,
    place: usize,
    memory: &mut [u8],
    block: &mut [u8],
    reply: &mut [u8],
) -> Scene
    ensures { life result memory.new block.new reply.new ≡ lives_of packed.now place events 0 (life (unplayed (get_or memory.old place 0)) memory.old block.old reply.old) }
{
    let mut scene = first(buffer::byte_at(memory, place));
    for count in 0..events {
        if packed.len() <= scene.at {
            return scene;
        }
        scene = turn(scene, count + 1, packed, place, memory, block, reply);
    }
    scene
}

// The first place from `from` on whose byte is not erased, outside write-protected pages.
fn first_written(memory: &[u8], from: usize) -> usize
    ensures { result ≡ first_written memory.now (length memory.now - from) from }
{
    let word = protection::protection_word(Board::LOGGER, memory);
    (from..memory.len())
        .find(|i| memory[*i] != 0xFF && !flash::is_kept(Board::LOGGER, word, *i))
        .unwrap_or(from.max(memory.len()))
}

// A place in flash, and the front of memory for any other.
fn in_flash(place: Place) -> usize
    ensures { result ≡ flash_place place }
{
    match place {
        Place::Flash(at) => at,
        Place::Ram(_) | Place::Options(_) | Place::Outside => 0,
    }
}

// The place where the write that waits begins, if it is one into flash.
fn aim(pointer: u32, pending: Pending) -> usize
    ensures { result ≡ target_of pointer pending }
{
    match pending {
        Pending::Write { block, count } => {
            let address = access::block_address(block, pointer);
            in_flash(Board::LOGGER.place(address, count as u64))
        }
        Pending::Nothing
        | Pending::SetPointer(_)
        | Pending::ErasePage(_)
        | Pending::MassErase
        | Pending::ReadUnprotect => 0,
    }
}

// What the memory is like then.
#[tactic(auto, unfolding(crate::specs::Trial::surveyed, board::specs::Memory::options_of))]
fn survey(scene: Scene, memory: &[u8], card: &[u8]) -> Scene
    requires { length memory.now ≡ memory_bytes logger }
    ensures { result ≡ surveyed scene memory.now card.now }
{
    let device = scene.device;
    let from = aim(device.pointer, device.pending);
    let options = Board::LOGGER.options_from();
    let behind = options + Board::OPTION_BYTES;
    Scene {
        is_protected: protection::read_protected(Board::LOGGER, memory),
        dirt: first_written(memory, from),
        altered: compare::first_change(&memory[options..behind], card, 0, Board::OPTION_BYTES),
        ..scene
    }
}

// The first `events` events of a job on a board with this card, whose flash and RAM were all `old`.
#[tactic(auto, unfolding(board::specs::Layout::memory_bytes, board::specs::Layout::options_from, board::specs::Layout::ram_from, board::specs::Layout::ram_bytes, board::specs::Layout::flash_bytes, board::specs::Layout::page_offset, board::specs::Layout::flash_pages, board::specs::Layout::page_bytes))]
pub fn run(packed: &[u8], events: usize, card: &[u8], old: u8, place: usize) -> Scene
    ensures { result ≡ trial_of packed.now events card.now old place }
{
    let mut memory = [0u8; Board::LOGGER_MEMORY];
    let mut block = [0u8; TRANSFER];
    let mut reply = [0u8; TRANSFER];
    equip(&mut memory, old, card);
    let scene = live(packed, events, place, &mut memory, &mut block, &mut reply);
    survey(scene, &memory, card)
}
