// The job text, walked in place: what stands where.
#![tactic(auto)]

ghost use Rattle.std.specs.Prelude.{◌≡◌, true, ◌<◌, length, drop};
ghost use Rattle.request.specs.Setup.{setup_of};
ghost use Rattle.hexfield.specs.Hex.{all_digits, bytes_of};
ghost use Rattle.laws.specs.Lines.{first_line};
ghost use Rattle.line.specs.Line.{well_spelled};
ghost use Rattle.text.specs.Walk.{item_of};

use request::Setup;

// The most bytes that a text may have.
pub const LIMIT: usize = 60000;

// What stands at a place of a text: its end, a malformed line, or an event with the place of the line after it.
#[derive(Clone, Copy)]
pub enum Item {
    End,
    Bad,
    Attach {
        next: usize,
    },
    Request {
        setup: Setup,
        data: usize,
        next: usize,
    },
}

// The setup that 16 digits spell.
fn setup(field: &[u8]) -> Setup
    requires { (length field.now ≡ 16) × (all_digits field.now ≡ true) }
    ensures { result ≡ setup_of (bytes_of field.now) }
{
    let (halves, _) = field.as_chunks::<8>();
    let [a, b, c, d] = wide::four(&halves[0]);
    let [e, f, g, h] = wide::four(&halves[1]);
    Setup::of(&[a, b, c, d, e, f, g, h])
}

// What stands at a place of the text.
#[tactic(auto, using(crate::proofs::Walking::item_end, crate::proofs::Walking::item_bad, crate::proofs::Walking::item_attach, crate::proofs::Walking::item_request, crate::proofs::Walking::item_digits))]
pub fn item_at(text: &[u8], at: usize) -> Item
    ensures { result ≡ item_of text.now at }
{
    if text.len() <= at {
        return Item::End;
    }
    let Some(line) = line::line_length(&text[at..]) else {
        return Item::Bad;
    };
    let next = at + line;
    if line < line::SHORTEST {
        return Item::Attach { next };
    }
    let asked = setup(&text[at + line::SETUP..at + line::TAB]);
    Item::Request {
        setup: asked,
        data: at + line::DATA,
        next,
    }
}

// The event at a place where the text is known to be well formed. A text that was measured before needs no second
// look at each digit. An Item here too, and never End or Bad: a type of its own would be a second word for `item_of`.
#[tactic(auto, using(crate::proofs::Known::known_attach, crate::proofs::Known::known_setup, crate::proofs::Known::known_digits, crate::proofs::Known::known_room, crate::proofs::Known::known_request))]
pub fn event_at(text: &[u8], at: usize) -> Item
    requires { (at < length text.now) × (well_spelled (first_line (drop at text.now)) ≡ true) }
    ensures { result ≡ item_of text.now at }
{
    if text[at] == b'A' {
        return Item::Attach { next: at + 2 };
    }
    let asked = setup(&text[at + line::SETUP..at + line::TAB]);
    let data = at + line::DATA;
    let end = data + asked.data_length() * 2;
    Item::Request {
        setup: asked,
        data,
        next: end + 1,
    }
}
