// The board: where its regions lie in the address space and in the memory buffer, and which span of addresses lies
// where. Who asks a board gets its numbers from the methods; that they are constants is known here alone.
//
// The line below opens the definitions that the promises here name: the check then finds every proof.
#![tactic(auto, unfolding(crate::specs::Layout::flash_pages, crate::specs::Layout::page_bytes, crate::specs::Layout::page_offset, crate::specs::Layout::flash_bytes, crate::specs::Layout::flash_first, crate::specs::Layout::flash_from, crate::specs::Layout::ram_first, crate::specs::Layout::ram_bytes, crate::specs::Layout::ram_from, crate::specs::Layout::options_first, crate::specs::Layout::options_from, crate::specs::Layout::memory_bytes, crate::specs::Layout::page_at, crate::specs::Layout::pages_of, crate::specs::Layout::page_rest, crate::specs::Memory::ram_parts, crate::specs::Memory::part_from, crate::specs::Memory::part_bytes, crate::specs::Memory::stretch_at, crate::specs::Span::spans, crate::specs::Span::in_flash, crate::specs::Span::place_of))]

ghost use Rattle.std.specs.Prelude.{◌≡◌, ◌≤◌, ◌<◌, length};
ghost use Rattle.board.specs.Layout.{flash_pages, page_bytes, page_offset, page_from, page_at, pages_of, page_rest, flash_bytes, flash_first, flash_from, ram_from, options_first, options_from, memory_bytes, defaults};
ghost use Rattle.board.specs.Memory.{ram_parts, part_from, part_bytes, stretch_at};
ghost use Rattle.board.specs.Supply.{unfit, supplied};
ghost use Rattle.board.specs.Span.{place_of, spans, in_flash};

use refusal::Refusal;

// A board is known by its number of flash pages; all else of the layout follows. That it is sound (`Sound`) is asked
// for where it is needed, and no type says it: many functions take any board, and the others would open the type.
#[derive(Clone, Copy)]
pub struct Board {
    pub pages: u8,
}

// Where a span lies, with the place of its first byte in the memory buffer.
#[derive(Clone, Copy)]
pub enum Place {
    Flash(usize),
    Ram(usize),
    Options(usize),
    Outside,
}

// The stretch of memory that holds a place, a page, RAM or the options: its region with the place, where it ends,
// and the place's address.
#[derive(Clone, Copy)]
pub struct Stretch {
    pub region: Place,
    pub end: usize,
    pub address: u32,
}

impl Board {
    pub const LOGGER: Board = Board { pages: 16 };

    pub const PAGE: usize = 1024;

    pub const FLASH: u32 = 0x0800_0000;

    pub const RAM: u32 = 0x2000_0000;

    pub const RAM_BYTES: usize = 2048;

    pub const OPTIONS: u32 = 0x1FFF_F800;

    pub const OPTION_BYTES: usize = 16;

    // Where flash begins in the memory buffer.
    const FLASH_FROM: usize = 0;

    // How many pages the logger has, and how long its flash and its memory are, for who lends an array of such a size.
    pub const LOGGER_PAGES: usize = Board::LOGGER.pages as usize;

    pub const LOGGER_FLASH: usize = Board::LOGGER_PAGES * Board::PAGE;

    pub const LOGGER_MEMORY: usize = Board::LOGGER_FLASH + Board::RAM_BYTES + Board::OPTION_BYTES;

    // The option bytes of a board as delivered: not read-protected, no page write-protected.
    pub fn default_options() -> [u8; 16]
        ensures { result ≡ defaults }
    {
        let mut options = [255u8; 16];
        options[0] = 0xAA;
        options
    }

    pub fn flash_pages(self) -> usize
        ensures { result ≡ flash_pages self }
    {
        self.pages as usize
    }

    pub fn page_bytes(self) -> usize
        ensures { result ≡ page_bytes self }
    {
        Board::PAGE
    }

    pub fn flash_bytes(self) -> usize
        ensures { result ≡ flash_bytes self }
    {
        self.pages as usize * Board::PAGE
    }

    pub fn flash_first(self) -> u32
        ensures { result ≡ flash_first self }
    {
        Board::FLASH
    }

    pub fn flash_from(self) -> usize
        ensures { result ≡ flash_from self }
    {
        Board::FLASH_FROM
    }

    fn ram_from(self) -> usize
        ensures { (result ≡ ram_from self) × (result < 0x100000000) }
    {
        self.flash_bytes()
    }

    pub fn options_from(self) -> usize
        ensures { (result ≡ options_from self) × (result < 0x100000000) }
    {
        self.flash_bytes() + Board::RAM_BYTES
    }

    pub fn options_first(self) -> u32
        ensures { result ≡ options_first self }
    {
        Board::OPTIONS
    }

    pub fn memory_bytes(self) -> usize
        ensures { (result ≡ memory_bytes self) × (result < 0x100000000) }
    {
        self.options_from() + Board::OPTION_BYTES
    }

    // The offset in flash at which a page begins.
    pub fn page_offset(self, page: usize) -> usize
        requires { page ≤ flash_pages self }
        ensures { result ≡ page_offset self page }
    {
        page * Board::PAGE
    }

    // The place in the memory buffer at which a page begins.
    pub fn page_from(self, page: usize) -> usize
        requires { page ≤ flash_pages self }
        ensures { result ≡ page_from self page }
    {
        Board::FLASH_FROM + self.page_offset(page)
    }

    // The page that holds this place of the memory buffer, if it is one of flash.
    pub fn page_at(self, place: usize) -> usize
        ensures { result ≡ page_at self place }
    {
        place.saturating_sub(Board::FLASH_FROM) / Board::PAGE
    }

    // How many pages an image takes.
    pub fn pages_of(self, image: &[u8]) -> usize
        ensures { result ≡ pages_of self (length image.now) }
    {
        image.len().div_ceil(Board::PAGE)
    }

    // How many of so many bytes are left behind the last whole page.
    pub fn page_rest(self, count: usize) -> usize
        ensures { result ≡ page_rest self count }
    {
        count % Board::PAGE
    }

    // How many parts of memory are RAM.
    pub fn ram_parts(self) -> usize
        ensures { result ≡ ram_parts self }
    {
        1
    }

    // Where a part of RAM begins in the memory buffer.
    pub fn part_from(self, part: usize) -> usize
        ensures { result ≡ part_from self part }
    {
        self.ram_from()
    }

    pub fn part_bytes(self, part: usize) -> usize
        ensures { result ≡ part_bytes self part }
    {
        Board::RAM_BYTES
    }

    // Has an image of this length no bytes, or more than flash?
    pub fn unfit(self, image: usize) -> bool
        ensures { result ≡ unfit self image }
    {
        image == 0 || self.flash_bytes() < image
    }

    // The refusals of an image and a card of these lengths, in their order.
    pub fn supplied(self, image: usize, card: usize) -> Result<(), Refusal>
        ensures { result ≡ supplied self image card }
    {
        if self.unfit(image) {
            return Err(Refusal::Image);
        }
        if card != Board::OPTION_BYTES {
            return Err(Refusal::Card);
        }
        Ok(())
    }

    // Do the `count` addresses from `address` on lie in flash?
    pub fn in_flash(self, address: u64, count: u64) -> bool
        ensures { result ≡ in_flash self address count }
    {
        within(Board::FLASH, self.flash_bytes(), address, count)
    }

    // Which region the `count` addresses from `address` on lie in.
    pub fn place(self, address: u64, count: u64) -> Place
        ensures { result ≡ place_of self address count }
    {
        if within(Board::FLASH, self.flash_bytes(), address, count) {
            return Place::Flash(Board::FLASH_FROM + (address - Board::FLASH as u64) as usize);
        }
        if within(Board::RAM, Board::RAM_BYTES, address, count) {
            return Place::Ram(self.ram_from() + (address - Board::RAM as u64) as usize);
        }
        if within(Board::OPTIONS, Board::OPTION_BYTES, address, count) {
            return Place::Options(self.options_from() + (address - Board::OPTIONS as u64) as usize);
        }
        Place::Outside
    }

    // The stretch of memory that holds a place; outside of memory there is none, and it ends where it begins.
    pub fn stretch_at(self, place: usize) -> Stretch
        ensures { result ≡ stretch_at self place }
    {
        let ram = self.ram_from();
        let options = self.options_from();
        if within(
            Board::FLASH_FROM as u32,
            self.flash_bytes(),
            place as u64,
            1,
        ) {
            return Stretch {
                region: Place::Flash(place),
                end: self.page_from(self.page_at(place) + 1),
                address: Board::FLASH + (place - Board::FLASH_FROM) as u32,
            };
        }
        if within(ram as u32, Board::RAM_BYTES, place as u64, 1) {
            return Stretch {
                region: Place::Ram(place),
                end: ram + Board::RAM_BYTES,
                address: Board::RAM + (place - ram) as u32,
            };
        }
        if within(options as u32, Board::OPTION_BYTES, place as u64, 1) {
            return Stretch {
                region: Place::Options(place),
                end: options + Board::OPTION_BYTES,
                address: Board::OPTIONS + (place - options) as u32,
            };
        }
        Stretch {
            region: Place::Outside,
            end: place,
            address: 0,
        }
    }
}

// Do `count` addresses from `address` on lie in the region of `bytes` from `first` on?
fn within(first: u32, bytes: usize, address: u64, count: u64) -> bool
    ensures { result ≡ spans first bytes address count }
{
    let Some(offset) = address.checked_sub(first as u64) else {
        return false;
    };
    let Some(room) = (bytes as u64).checked_sub(offset) else {
        return false;
    };
    count <= room
}
