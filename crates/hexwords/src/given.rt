// Which addresses the records of a text give. All lines up to the one that is asked for are well formed.
use crate::{fields, lines};

// The addresses of a line's data, from the first on to one behind the last.
#[derive(Clone, Copy)]
pub(crate) struct Span {
    pub from: usize,
    pub to: usize,
}

// What is known behind some lines: the upper half of addresses, and the lowest address of a span that one of them
// gives, with the line; the span's end, where none does: with an Option the lowest one would be asked for twice.
#[derive(Clone, Copy)]
pub(crate) struct Seen {
    pub upper: u16,
    pub address: usize,
    pub line: usize,
}

// The addresses of a record's data.
fn span_of(upper: u16, record: &[u8]) -> Span {
    let from = upper as usize * 65536 + fields::offset(record) as usize;
    Span {
        from,
        to: from + fields::count(record) as usize,
    }
}

// A record of data more.
fn overlap(seen: Seen, number: usize, span: Span, from: usize) -> Seen {
    let low = span.from.max(from);
    if low < span.to && low < seen.address {
        return Seen {
            address: low,
            line: number,
            ..seen
        };
    }
    seen
}

// A record more.
fn more(seen: Seen, number: usize, record: &[u8], from: usize) -> Seen {
    match fields::kind(record) {
        record::DATA => overlap(seen, number, span_of(seen.upper, record), from),
        record::UPPER => Seen {
            upper: fields::half(record),
            ..seen
        },
        _ => seen,
    }
}

// What is known of a span behind all lines before this one.
fn behind(text: &[u8], line: usize, span: Span) -> Seen {
    let mut seen = Seen {
        upper: 0,
        address: span.to,
        line: 0,
    };
    let mut rest = text;
    for number in 1..line {
        seen = more(seen, number, rest, span.from);
        rest = lines::others(rest);
    }
    seen
}

// The addresses that a line gives.
pub(crate) fn addresses(text: &[u8], line: usize) -> Span {
    let upper = behind(text, line, Span { from: 0, to: 0 }).upper;
    span_of(upper, lines::from(text, line))
}

// The first address of a line that an earlier line gives too, and which.
pub(crate) fn before(text: &[u8], line: usize) -> Seen {
    behind(text, line, addresses(text, line))
}
