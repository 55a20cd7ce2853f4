// A bad record: what is wrong with it, the first that applies.
ghost use Rattle.std.specs.Prelude.{◌+◌, ◌≤◌, length};

use crate::{fields, lines};
use files::{Stream, System};

// What is wrong with a line, in the order of the sentence's parts.
#[derive(Clone, Copy)]
enum Reason {
    Cut,
    Empty,
    Foreign,
    Strange,
    Short,
    Misfit,
    Type,
    Form,
    Sum,
    Return,
}

// What stands behind the colon.
fn digits(record: &[u8]) -> &[u8]
    ensures { length result.now ≤ length «record».now }
{
    record.get(1..).unwrap_or(b"")
}

// The place of the first character behind the colon that is no digit, or the record's end.
fn first_strange(record: &[u8]) -> usize
    ensures { result ≤ length «record».now + 1 }
{
    let digits = digits(record);
    match digits.iter().position(|digit| !hexfield::digits(&[*digit])) {
        Some(at) => at + 1,
        None => digits.len() + 1,
    }
}

// The sum of a record's bytes, the last one among them.
fn sum(record: &[u8]) -> u8 {
    digits(record)
        .chunks_exact(2)
        .fold(0, |sum: u8, pair| match pair {
            [high, low] => sum.wrapping_add(fields::pair(*high, *low)),
            _ => sum,
        })
}

// The byte that a record's last two digits spell.
fn last(record: &[u8]) -> u8 {
    match record {
        [.., high, low] => fields::pair(*high, *low),
        _ => 0,
    }
}

// The characters that a record has by its length field.
fn wanted(record: &[u8]) -> usize {
    fields::count(record) as usize * 2 + record::SHORTEST
}

// The length field of a record that is not of type 00, if the type is read.
fn length_of(kind: u8) -> Option<u8> {
    match kind {
        record::END => Some(record::END_BYTES),
        record::UPPER => Some(record::UPPER_BYTES),
        record::START => Some(record::START_BYTES),
        _ => None,
    }
}

// What is wrong with the characters of a line that ends. A record of the right length and sum is of a type that is not
// read, or has a length or an offset that its type does not have.
fn misspelling(record: &[u8]) -> Reason {
    if record.is_empty() {
        return Reason::Empty;
    }
    if record[0] != b':' {
        return Reason::Foreign;
    }
    if first_strange(record) < record.len() {
        return Reason::Strange;
    }
    if record.len() < record::SHORTEST {
        return Reason::Short;
    }
    if record.len() != wanted(record) {
        return Reason::Misfit;
    }
    // a wrong sum says that the other fields are not to be trusted
    if sum(record) != 0 {
        return Reason::Sum;
    }
    match length_of(fields::kind(record)) {
        None => Reason::Type,
        Some(_) => Reason::Form,
    }
}

// What is wrong with a line that does not end: what is no HEX at all, lines that end in CR alone, or a text that was
// cut.
fn unclosed(record: &[u8]) -> Reason {
    if buffer::byte_at(record, 0) != b':' {
        return Reason::Foreign;
    }
    let strange = first_strange(record);
    if strange + 1 < record.len() && record[strange] == b'\r' {
        return Reason::Return;
    }
    Reason::Cut
}

fn describe(rt: &impl System, number: usize, reason: Reason, record: &[u8]) {
    let kind = fields::kind(record);
    files::say(
        rt,
        Stream::Err,
        b"Line # of the HEX text [does not end: the text stops there. Get the file again if it was cut, else end the line with LF or CR LF|is empty. Take it out|does not begin with a colon, as every record does. Give a file in Intel HEX, or take out what is no record|has a character that is no hexadecimal digit, number # in the line. Get the file again, or write it anew|has # of the 11 characters that the shortest record has. Get the file again, or write it anew|has # characters and not #, as its length field % asks for. Get the file again, or write it anew|is a record of type %, and only 00, 01, 04 and 05 are read. Write the HEX with linear addresses of 32 bits|is a record of type %, with length field % and offset %%: these have to be % and 0000. Write the HEX anew|has the sum %, and its other bytes ask for %: it was changed or damaged. Get the file again, or write it anew|has a CR without the LF that would end the line, number # in it. Write the file with LF or CR LF at the end of each line].\n",
        &[
            number,
            reason as usize,
            first_strange(record) + 1,
            record.len(),
            record.len(),
            wanted(record),
            fields::count(record) as usize,
            kind as usize,
            kind as usize,
            fields::count(record) as usize,
            fields::offset_high(record) as usize,
            fields::offset_low(record) as usize,
            length_of(kind).unwrap_or(0) as usize,
            last(record) as usize,
            last(record).wrapping_sub(sum(record)) as usize,
            first_strange(record) + 1,
        ],
    );
}

// Says what is wrong with a line.
pub(crate) fn tell(rt: &impl System, text: &[u8], number: usize) {
    let line = lines::first(lines::from(text, number));
    let record = lines::record(line);
    let reason = if record.len() < line.len() {
        misspelling(record)
    } else {
        unclosed(record)
    };
    describe(rt, number, reason, record);
}
