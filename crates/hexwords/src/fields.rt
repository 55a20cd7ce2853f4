// The fields of a record: `:`, length, offset, type, data, sum. Characters that are not there, or are no digits, count as
// some number.

// The byte of two digits.
pub(crate) fn pair(high: u8, low: u8) -> u8 {
    (digit::told(high, low) % 256) as u8
}

pub(crate) fn count(record: &[u8]) -> u8 {
    pair(buffer::byte_at(record, 1), buffer::byte_at(record, 2))
}

pub(crate) fn offset_high(record: &[u8]) -> u8 {
    pair(buffer::byte_at(record, 3), buffer::byte_at(record, 4))
}

pub(crate) fn offset_low(record: &[u8]) -> u8 {
    pair(buffer::byte_at(record, 5), buffer::byte_at(record, 6))
}

pub(crate) fn offset(record: &[u8]) -> u16 {
    record::word(offset_high(record), offset_low(record))
}

pub(crate) fn kind(record: &[u8]) -> u8 {
    pair(buffer::byte_at(record, 7), buffer::byte_at(record, 8))
}

// The first two bytes of the data.
pub(crate) fn half(record: &[u8]) -> u16 {
    record::word(
        pair(buffer::byte_at(record, 9), buffer::byte_at(record, 10)),
        pair(buffer::byte_at(record, 11), buffer::byte_at(record, 12)),
    )
}
