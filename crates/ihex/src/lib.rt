// Intel HEX: an image read from a text, and written as one.
#![tactic(auto)]

ghost use Rattle.std.specs.Prelude.{◌≡◌, true, [], ◌+◌, ◌*◌, ◌^◌, ◌≤◌, ◌<◌, length};
ghost use Rattle.laws.specs.Bytes.{put};
ghost use Rattle.board.specs.Layout.{logger, flash_bytes};
ghost use Rattle.refusal.specs.Delivery.{delivery};
ghost use Rattle.record.specs.Record.{length_of, sound, offset_count};
ghost use Rattle.pieces.specs.Ways.{Holds};
ghost use Rattle.ihex.specs.Reading.{data_address, upper_after, hex_read, faulty_line};
ghost use Rattle.ihex.specs.Writing.{upper_half, hex_text, hex_written};
ghost use Rattle.ihex.specs.Ways.{RecordPlaces, stopped_of, ended_of, Walks, OneSegment, data_text, text_bytes};

use board::Board;
use refusal::Refusal;

// A bit for each byte of the logger's flash.
const MARKS: usize = (Board::LOGGER_FLASH + 7) / 8;

// What an image has where nothing is given.
const GAP: u8 = 0xFF;

// The data bytes of a record that is written.
const RECORD: usize = 16;

// The line of the upper half, which has two bytes of data, and that of the end.
const OUTER: usize = record::LINE * 2 + record::UPPER_BYTES as usize * 2;

// The longest text of an image that is written.
pub const LONGEST: usize = OUTER
    + (Board::LOGGER_FLASH + (RECORD - 1)) / RECORD * record::LINE
    + Board::LOGGER_FLASH * 2;

// Why a text gives no image, and the number of the line at fault.
#[derive(Clone, Copy)]
pub struct Fault {
    pub why: Refusal,
    pub line: usize,
}

impl From<Fault> for Refusal {
    ghost from_gives = { λ fault why. why ≡ fault.why };

    fn from(fault: Fault) -> Refusal {
        fault.why
    }
}

// The address of a record's first byte.
fn address(upper: u32, record: &[u8]) -> u64
    requires { 5 ≤ length «record».now }
    ensures { result ≡ data_address upper «record».now }
{
    upper as u64 * 0x1_0000 + record::word(record[1], record[2]) as u64
}

// The upper half of the addresses behind a record.
fn upper_after(upper: u32, record: &[u8]) -> u32
    requires { (length «record».now ≡ 5 + length_of «record».now) × (sound «record».now ≡ true) }
    ensures { result ≡ upper_after upper «record».now }
{
    if record[3] == record::UPPER {
        return record::word(record[4], record[5]) as u32;
    }
    upper
}

// Lays the data of a record, and gives where the image ends then; or refuses, and lays none.
fn lay(
    board: Board,
    upper: u32,
    record: &[u8],
    end: usize,
    given: &mut [u8],
    image: &mut [u8],
) -> Result<usize, Refusal>
    requires { (length «record».now ≡ 5 + length_of «record».now) × (flash_bytes board ≤ length given.old * 8) × (length image.old ≡ flash_bytes board) }
    ensures { RecordPlaces board upper «record».now end given.old image.old given.new image.new result }
{
    if record[3] != record::DATA {
        return Ok(end);
    }
    let from = address(upper, record);
    let to = record.len() - 1;
    pieces::place(board, from, &record[4..to], end, given, image)
}

fn stopped(why: Refusal, line: usize) -> Result<usize, Fault>
    ensures { result ≡ stopped_of why line }
{
    Err(Fault { why, line })
}

// At the end record, which is line `number`: `left` bytes stand behind it, and the image ends at `end`.
fn ended(left: usize, end: usize, number: usize) -> Result<usize, Fault>
    requires { number + 1 < 2 ^ 64 }
    ensures { result ≡ ended_of left end number }
{
    if left != 0 {
        return stopped(Refusal::Unended, number + 1);
    }
    if end == 0 {
        return stopped(Refusal::Empty, number);
    }
    Ok(end)
}

// Walks over a text, line by line, and lays its data into the image, which ends at the place that it gives; `given` has
// a bit for each byte that was.
fn walk(
    board: Board,
    text: &[u8],
    record: &mut [u8],
    given: &mut [u8],
    image: &mut [u8],
) -> Result<usize, Fault>
    requires { (260 ≤ length «record».old) × Holds board [] given.old image.old 0 }
    ensures { Walks board text.now result image.new }
{
    let mut at = 0;
    let mut number = 1;
    let mut upper = 0;
    let mut end = 0;
    // how long a line is, only reading it tells, so no range counts the places
    while at < text.len() {
        let Some(line) = record::read(&text[at..], record) else {
            return stopped(Refusal::Record(number), number);
        };
        let size = record::FRAME + record[0] as usize;
        if record[3] == record::END {
            return ended(text.len() - at - line, end, number);
        }
        match lay(board, upper, &record[0..size], end, given, image) {
            Ok(to) => end = to,
            Err(why) => return stopped(why, number),
        }
        upper = upper_after(upper, &record[0..size]);
        at += line;
        number += 1;
    }
    stopped(Refusal::Unended, number)
}

// Reads a HEX text: its image goes to the front of `out`.
pub fn read(text: &[u8], out: &mut [u8]) -> Result<usize, Refusal>
    ensures { delivery result out.new ≡ hex_read logger text.now out.old }
{
    let mut record = [0u8; record::ROOM];
    let mut given = [0u8; MARKS];
    let mut image = [GAP; Board::LOGGER_FLASH];
    let count = walk(Board::LOGGER, text, &mut record, &mut given, &mut image)?;
    if out.len() < count {
        return Err(Refusal::Output);
    }
    buffer::put(out, 0, &image[0..count]);
    Ok(count)
}

// The number of a text's first faulty line, from 1, or 0 where it has none. Where the end record is missing, it is that
// of the line behind the last. 0 and no Option: a caller asks this of a text that was refused, and prints the number.
pub fn faulty_line(text: &[u8]) -> usize
    ensures { result ≡ faulty_line logger text.now }
{
    let mut record = [0u8; record::ROOM];
    let mut given = [0u8; MARKS];
    let mut image = [GAP; Board::LOGGER_FLASH];
    match walk(Board::LOGGER, text, &mut record, &mut given, &mut image) {
        Ok(_) => 0,
        Err(fault) => fault.line,
    }
}

// How long the text of an image is: the two lines around the data, and for each record of them its frame.
fn text_size(image: &[u8]) -> usize
    requires { length image.now ≤ offset_count }
    ensures { result ≡ text_bytes (length image.now) }
{
    OUTER + image.len().div_ceil(RECORD) * record::LINE + image.len() * 2
}

// Writes the data records of an image into `out` from place `at` on, and gives the place behind them.
fn write_data(image: &[u8], out: &mut [u8], at: usize) -> usize
    requires { (length image.now ≤ offset_count) × (at + length (data_text image.now) ≤ length out.old) }
    ensures { (out.new ≡ put at (data_text image.now) out.old) × (result ≡ at + length (data_text image.now)) }
{
    let mut to = at;
    for n in 0..image.len().div_ceil(RECORD) {
        let from = n * RECORD;
        let end = (from + RECORD).min(image.len());
        to += record::write(record::DATA, from as u16, &image[from..end], out, to);
    }
    to
}

// The upper half of the first flash address, high byte first.
#[tactic(auto, unfolding(crate::specs::Writing::upper_half))]
fn upper_half(board: Board) -> [u8; 2]
    ensures { result ≡ upper_half board }
{
    let [high, low, _, _] = board.flash_first().to_be_bytes();
    [high, low]
}

// Writes the text of an image to the front of `out`.
fn spell(board: Board, image: &[u8], out: &mut [u8])
    requires { OneSegment board × (length image.now ≤ offset_count) × (length (hex_text board image.now) ≤ length out.old) }
    ensures { out.new ≡ put 0 (hex_text board image.now) out.old }
{
    let first = record::write(record::UPPER, 0, &upper_half(board), out, 0);
    let last = write_data(image, out, first);
    record::write(record::END, 0, b"", out, last);
}

// Writes an image as HEX for a board.
fn write_for(board: Board, image: &[u8], out: &mut [u8]) -> Result<usize, Refusal>
    requires { OneSegment board }
    ensures { delivery result out.new ≡ hex_written board image.now out.old }
{
    if board.unfit(image.len()) {
        return Err(Refusal::Image);
    }
    let size = text_size(image);
    if out.len() < size {
        return Err(Refusal::Output);
    }
    spell(board, image, out);
    Ok(size)
}

// Writes an image as HEX to the front of `out`.
pub fn write(image: &[u8], out: &mut [u8]) -> Result<usize, Refusal>
    ensures { delivery result out.new ≡ hex_written logger image.now out.old }
{
    write_for(Board::LOGGER, image, out)
}
