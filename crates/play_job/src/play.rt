// The events of a job, one after the other on one board.
use crate::change::Lead;
use crate::{change, event, refuse};
use board::Board;
use device::Device;
use files::{Stream, System};
use loader::Stepped;
use player::Asked;
use refusal::Refusal;
use request::Setup;

const TRANSFER: usize = Setup::TRANSFER as usize;

// What of memory is neither flash nor options.
const RAM: usize = Board::LOGGER_MEMORY - Board::LOGGER_FLASH - Board::OPTION_BYTES;

// Room for a line in which every part differs.
const LINE_ROOM: usize = 1200;

// Prints the line of an event that happened to a device with this pointer, and what it changed.
fn print(
    rt: &impl System,
    number: usize,
    pointer: u32,
    asked: Asked,
    stepped: Stepped,
    old: &[u8],
    new: &[u8],
) {
    let mut line = [0u8; LINE_ROOM];
    let end = event::request(number, pointer, asked, &mut line);
    let end = event::outcome(stepped, &mut line, end);
    let end = change::list(old, new, Lead::Inline, &mut line, end);
    let end = append::say(b"\n", &mut line, end);
    files::write(rt, Stream::Out, &line, end);
}

// Lets an event happen and prints its line; gives the device after it.
fn turn(
    rt: &impl System,
    device: Device,
    number: usize,
    piece: &[u8],
    memory: &mut [u8; Board::LOGGER_MEMORY],
    block: &mut [u8],
    reply: &mut [u8],
) -> Device {
    let before = *memory;
    let asked = player::asks(piece);
    let stepped = player::step(device, piece, memory, block, reply);
    print(rt, number, device.pointer, asked, stepped, &before, memory);
    stepped.device
}

// Prints the device and the differences that the whole job made.
fn conclude(rt: &impl System, number: usize, device: Device, old: &[u8], new: &[u8]) {
    let mut line = [0u8; LINE_ROOM];
    let end = event::sum_up(number, device, &mut line);
    let listed = change::list(old, new, Lead::Alone, &mut line, end);
    let end = sentence::fill(
        b"\n[nothing differs from|all else is as] before\n",
        &[usize::from(listed != end)],
        b"",
        &mut line,
        listed,
    );
    files::write(rt, Stream::Out, &line, end);
}

// A file that is no board's memory.
fn refuse_size(rt: &impl System) {
    refuse::say(
        rt,
        Refusal::Memory,
        b"A board has # bytes: # of flash, # of RAM, # of options. Give a file of that size.\n",
        &[
            Board::LOGGER_MEMORY,
            Board::LOGGER_FLASH,
            RAM,
            Board::OPTION_BYTES,
        ],
    );
}

// Plays packed events on a board that was just attached, if it is one.
pub(crate) fn play(rt: &impl System, packed: &[u8], board: &[u8]) {
    let Ok(mut memory) = <[u8; Board::LOGGER_MEMORY]>::try_from(board) else {
        refuse_size(rt);
        return;
    };
    let mut block = [0u8; TRANSFER];
    let mut reply = [0u8; TRANSFER];
    let mut device = Device::start(Board::LOGGER);
    let mut number = 0;
    let mut rest = packed;
    while let Some(size) = packed::piece_length(rest) {
        let (piece, others) = rest.split_at(size);
        number += 1;
        device = turn(
            rt,
            device,
            number,
            piece,
            &mut memory,
            &mut block,
            &mut reply,
        );
        rest = others;
    }
    conclude(rt, number, device, board, &memory);
}
