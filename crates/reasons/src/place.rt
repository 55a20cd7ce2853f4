// Addresses in words: where they lie, and in which pages.
use crate::say;
use board::{Board, Place};
use files::System;

// How many addresses there are.
const ADDRESSES: u64 = 0x1_0000_0000;

// Where bytes lie, in the order of the sentence's parts: in one page of flash, or in more.
#[derive(Clone, Copy)]
enum Region {
    Ram,
    Options,
    Nowhere,
    Page,
    Pages,
}

impl Region {
    fn of(place: Place, low: usize, high: usize) -> Region {
        match place {
            Place::Ram(_) => Region::Ram,
            Place::Options(_) => Region::Options,
            Place::Outside => Region::Nowhere,
            Place::Flash(_) => if low == high {
                Region::Page
            } else {
                Region::Pages
            },
        }
    }
}

// The page of an address, or 0 where it lies in none.
fn page_of(address: usize) -> usize {
    match Board::LOGGER.place(address as u64, 1) {
        Place::Flash(at) => Board::LOGGER.page_at(at),
        _ => 0,
    }
}

// So many bytes from an address on.
pub(crate) fn span(rt: &impl System, from: u64, count: u16) {
    let place = Board::LOGGER.place(from, count as u64);
    let first = (from % ADDRESSES) as usize;
    let others = count.saturating_sub(1) as usize;
    let last = first + others;
    let low = page_of(first);
    let high = page_of(last);
    say::fill(
        rt,
        b"@[| to @][ (RAM)| (options)| (not in a region)| (page #)| (pages # to #)]",
        &[
            first,
            others,
            last,
            Region::of(place, low, high) as usize,
            low,
            low,
            high,
        ],
    );
}

// The byte at a place of memory.
pub(crate) fn byte(rt: &impl System, place: usize) {
    let stretch = Board::LOGGER.stretch_at(place);
    span(rt, stretch.address as u64, 1);
}
