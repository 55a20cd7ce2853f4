// Refusals: the line that names one, and a sentence for people.
use board::Board;
use files::{Stream, System};
use refusal::Refusal;
use verdict::Verdict;

// The line.
fn name(rt: &impl System, why: Refusal) {
    telling::line(rt, Stream::Err, Verdict::Refused(why));
}

// A sentence with its numbers.
fn tell(rt: &impl System, template: &[u8], numbers: &[usize]) {
    files::say(rt, Stream::Err, template, numbers);
}

// Arguments that are not two files.
pub(crate) fn arguments(rt: &impl System) {
    name(rt, Refusal::File);
    tell(
        rt,
        b"Name two files, the image and the card, or none to take image.bin and card.bin in this folder.\n",
        &[],
    );
}

fn image(rt: &impl System, size: usize) {
    tell(
        rt,
        b"The image [is empty|has more bytes than the flash]. Give an image of 1 to # bytes.\n",
        &[size, Board::LOGGER.flash_bytes()],
    );
}

fn card(rt: &impl System, size: usize) {
    tell(
        rt,
        b"The card has [#|more than #] byte[s||s]. Give the # option bytes as they are read from @.\n",
        &[
            size / Board::OPTION_BYTES,
            size,
            Board::OPTION_BYTES,
            size,
            Board::OPTION_BYTES,
            Board::LOGGER.options_first() as usize,
        ],
    );
}

// The lowest page that the word write-protects, or `count` where none below is.
fn first_protected(word: u32, count: usize) -> usize {
    (0..count)
        .find(|page| protection::write_protected(word, *page))
        .unwrap_or(count)
}

// A page of the image that keeps its bytes.
fn page(rt: &impl System, page: usize) {
    tell(
        rt,
        b"The image reaches into page #, which is write-protected by the card (option byte #, bit #): the loader would leave it as it is. Lift the write protection of that page on the board, then plan again with the card that the board has then.\n",
        &[page, protection::option_of(Board::LOGGER, page), page % 8],
    );
}

// A card that keeps the image from being written.
fn protected(rt: &impl System, image: &[u8], card: &[u8]) {
    if protection::locked(card, 0) {
        tell(
            rt,
            b"The card is read-protected (option byte 0 is not AA), and a board with it takes no erase and no write. Lift that on the board, which erases the flash, then plan again with the card that the board has then.\n",
            &[],
        );
        return;
    }
    let board = Board::LOGGER;
    page(
        rt,
        first_protected(protection::word(board, card, 0), board.pages_of(image)),
    );
}

// An image or a card that no job is for.
pub(crate) fn plan(rt: &impl System, why: Refusal, wanted: &[u8], options: &[u8]) {
    name(rt, why);
    match why {
        Refusal::Image => image(rt, wanted.len()),
        Refusal::Card => card(rt, options.len()),
        Refusal::Protected => protected(rt, wanted, options),
        _ => tell(rt, b"The job has no room here.\n", &[]),
    }
}
