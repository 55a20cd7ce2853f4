// A walk over a text by `text::item_at`: the events that it meets, and the digest of its items.
use request::Setup;
use text::Item;

// Where the walk is, the events that it met, the digest of its items, and whether it met a malformed line.
#[derive(Clone, Copy)]
pub struct Walk {
    pub at: usize,
    pub events: u32,
    pub digest: usize,
    pub is_bad: bool,
}

// The walk behind an event more, whose numbers these are.
fn behind(walk: Walk, numbers: &[usize], next: usize) -> Walk {
    Walk {
        at: next,
        events: walk.events.wrapping_add(1),
        digest: vectors::mix(walk.digest, numbers),
        ..walk
    }
}

fn requested(walk: Walk, setup: Setup, data: usize, next: usize) -> Walk {
    let numbers = [
        1,
        setup.kind as usize,
        setup.code as usize,
        setup.value as usize,
        setup.index as usize,
        setup.length as usize,
        data,
        next,
    ];
    behind(walk, &numbers, next)
}

// The walk behind the next item; false where it is over.
fn step(text: &[u8], walk: &mut Walk) -> bool {
    match text::item_at(text, walk.at) {
        Item::End => false,
        Item::Bad => {
            walk.is_bad = true;
            false
        }
        Item::Attach { next } => {
            *walk = behind(*walk, &[0, next], next);
            true
        }
        Item::Request { setup, data, next } => {
            *walk = requested(*walk, setup, data, next);
            true
        }
    }
}

pub(crate) fn whole(text: &[u8]) -> Walk {
    let mut walk = Walk {
        at: 0,
        events: 0,
        digest: 1,
        is_bad: false,
    };
    feed::turns(|| step(text, &mut walk));
    walk
}
