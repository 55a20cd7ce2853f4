// A job that passes, and why there is no verdict on one: what to do.
use crate::say;
use board::Board;
use files::System;
use refusal::Refusal;

// The job works on every board.
pub fn passed(rt: &impl System, image: usize) {
    say::fill(
        rt,
        b"Play the job: on every board with this card, whatever its flash and RAM hold, it puts the image of # byte[s||s] in place and starts it.",
        &[image, image],
    );
}

// What is wrong with the length of image or card, in the order of the sentence's parts.
#[derive(Clone, Copy)]
enum Amount {
    Empty,
    Above,
    Byte,
    Bytes,
    More,
    Right,
}

impl Amount {
    fn of(why: Refusal, image: usize, card: usize) -> Amount {
        match why {
            Refusal::Image if image == 0 => Amount::Empty,
            Refusal::Image => Amount::Above,
            Refusal::Card if Board::OPTION_BYTES < card => Amount::More,
            Refusal::Card if card == 1 => Amount::Byte,
            Refusal::Card => Amount::Bytes,
            _ => Amount::Right,
        }
    }
}

// A refusal of the checker; the sentence picks by its number. The ones left out are not its own, or are about a work
// area of another size than ours. `longest` is the length of the longest plan.
pub fn refuses(rt: &impl System, why: Refusal, image: usize, card: usize, longest: usize) {
    let number = why.number() as usize;
    say::fill(
        rt,
        b"[|||||||The image |The card has |The job has more than 60000 bytes|Line # of the job is malformed|][is empty|has more bytes than the flash|# byte|# bytes|more than # bytes|][|||||||. Give an image of 1 to # bytes.|. Give the # option bytes as they are read from @.|. Take out lines that it does not need: the plan of the longest image has # bytes.|. Correct it: a line is A, or Q, a tab, 16 digits, a tab and the data, with as many bytes as the setup asks for, in hexadecimal of either case, and ends with LF alone; A and Q are capitals.|]",
        &[
            number,
            why.line(),
            Amount::of(why, image, card) as usize,
            card,
            card,
            Board::OPTION_BYTES,
            number,
            Board::LOGGER.flash_bytes(),
            Board::OPTION_BYTES,
            Board::LOGGER.options_first() as usize,
            longest,
        ],
    );
}
