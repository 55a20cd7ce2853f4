// Where two memories differ, in words.
use board::{Board, Place};

// What stands before a part that differs, in the order of the sentence's parts: in the line of an event, and on a line
// of its own.
#[derive(Clone, Copy)]
pub(crate) enum Lead {
    Inline,
    Alone,
}

// A part of memory, likewise.
#[derive(Clone, Copy)]
enum Part {
    Flash,
    Ram,
    Options,
}

impl Part {
    fn of(region: Place) -> Part {
        match region {
            Place::Flash(_) => Part::Flash,
            Place::Ram(_) => Part::Ram,
            Place::Options(_) | Place::Outside => Part::Options,
        }
    }
}

// Every part that differs, with the first place that does.
pub(crate) fn list(old: &[u8], new: &[u8], lead: Lead, out: &mut [u8], at: usize) -> usize {
    let board = Board::LOGGER;
    let all = board.memory_bytes();
    let mut end = at;
    let mut place = compare::first_change(old, new, 0, all);
    // where the next part that differs begins is known only behind this one
    while place < all {
        let stretch = board.stretch_at(place);
        end = sentence::fill(
            b"[; |\n][page #|RAM|the option block] differs from @ on",
            &[
                lead as usize,
                Part::of(stretch.region) as usize,
                board.page_at(place),
                stretch.address as usize,
            ],
            b"",
            out,
            end,
        );
        place = compare::first_change(old, new, stretch.end, all);
    }
    end
}
