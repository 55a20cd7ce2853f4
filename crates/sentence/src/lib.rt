// Sentences with gaps: a template, and the numbers and texts that go into it.
//
// In a template # stands for a number in decimal, @ for one as an address, % for one as a byte in two digits, $ for a
// text, and [a|b|c] for the part that a number picks, counted from 0, or for the last where there are not so many. Each
// of them takes the next number or text, also in a part that is not picked. All else stands for itself.
#![tactic(auto)]

ghost use Rattle.std.specs.Prelude.{◌≡◌, cond, [], ◌∷◌, ◌+◌, ◌≤◌, ◌<◌, drop};
ghost use Rattle.hexfield.specs.Hex.{hex_of};
ghost use Rattle.decimal.specs.Decimal.{decimal_of};
ghost use Rattle.sentence.specs.Address.{address_of};
ghost use Rattle.append.specs.Said.{left, said_of};
ghost use Rattle.sentence.specs.Sentence.{first_text, spelled_of, takes_of, left_texts, part_of, bars_of, picked_of, sentence_of};

// How many bytes and how many addresses there are.
const BYTES: usize = 0x100;

const ADDRESSES: usize = 0x1_0000_0000;

// The most digits that a number has, and a byte behind them.
const DIGITS: usize = 21;

// The number in decimal.
fn decimal(number: usize, out: &mut [u8], at: usize) -> usize
    ensures { left result out.new ≡ said_of (decimal_of number) out.old at }
{
    let mut digits = [0u8; DIGITS];
    let end = decimal::write_field(number, b' ', &mut digits, 0);
    append::say(&digits[..end - 1], out, at)
}

// The address in hexadecimal: eight digits behind 0x.
fn address(address: u32, out: &mut [u8], at: usize) -> usize
    ensures { left result out.new ≡ said_of (address_of address) out.old at }
{
    let mut digits = *b"0x00000000";
    hexfield::encode(&address.to_be_bytes(), &mut digits, 2);
    append::say(&digits, out, at)
}

// A byte's two digits.
fn digits(byte: u8, out: &mut [u8], at: usize) -> usize
    ensures { left result out.new ≡ said_of (hex_of (byte ∷ [])) out.old at }
{
    let mut field = *b"00";
    hexfield::encode(&[byte], &mut field, 0);
    append::say(&field, out, at)
}

// Of texts with a bar between them, the first.
fn first_text(texts: &[u8]) -> &[u8]
    ensures { result.now ≡ first_text texts.now }
{
    let end = texts
        .iter()
        .position(|byte| *byte == b'|')
        .unwrap_or(texts.len());
    &texts[..end]
}

// What a byte of the template comes to, with the next number and the next text; nothing where its part is not picked.
#[tactic(auto, using(append::proofs::Said::said_nothing), unfolding(crate::specs::Sentence::spelled_of))]
fn spell(is_picked: bool, byte: u8, number: usize, text: &[u8], out: &mut [u8], at: usize) -> usize
    ensures { left result out.new ≡ said_of (cond is_picked (spelled_of byte number text.now) []) out.old at }
{
    if !is_picked {
        return at;
    }
    match byte {
        b'#' => decimal(number, out, at),
        b'@' => address((number % ADDRESSES) as u32, out, at),
        b'%' => digits((number % BYTES) as u8, out, at),
        b'$' => append::say(text, out, at),
        b'[' | b'|' | b']' => at,
        _ => append::say(&[byte], out, at),
    }
}

// The numbers that are left behind the byte.
fn numbers_after(byte: u8, numbers: &[usize]) -> &[usize]
    ensures { result.now ≡ drop (takes_of byte) numbers.now }
{
    match byte {
        b'#' | b'@' | b'%' | b'[' => numbers.get(1..).unwrap_or(&[]),
        _ => numbers,
    }
}

// The texts that are left behind the byte, of which the first is `text`.
fn texts_after<'a>(byte: u8, texts: &'a [u8], text: &[u8]) -> &'a [u8]
    requires { text.now ≡ first_text texts.now }
    ensures { result.now ≡ left_texts byte texts.now }
{
    if byte == b'$' {
        texts.get(text.len() + 1..).unwrap_or(&[])
    } else {
        texts
    }
}

// The part that stands behind the byte, counted from 0.
fn part_after(byte: u8, part: usize) -> usize
    requires { part < 0xFFFF_FFFF_FFFF_FFFF }
    ensures { (result ≡ part_of byte part) × (result ≤ part + 1) }
{
    match byte {
        b'[' | b']' => 0,
        b'|' => part + 1,
        _ => part,
    }
}

// How many bars stand in front of the next closing bracket.
fn bars(rest: &[u8]) -> usize
    ensures { result ≡ bars_of rest.now }
{
    rest.iter()
        .take_while(|byte| **byte != b']')
        .filter(|byte| **byte == b'|')
        .count()
}

// The part that is picked behind the byte, with `rest` of the template behind it.
fn picked_after(byte: u8, picked: usize, number: usize, rest: &[u8]) -> usize
    ensures { result ≡ picked_of byte picked number rest.now }
{
    match byte {
        b'[' => number.min(bars(rest)),
        b']' => 0,
        _ => picked,
    }
}

// The sentence goes over the bytes of `out` from place `at` on, as much of it as there is room for; gives the place
// behind it. Texts stand one behind the other with a bar between them. A number that is missing is 0, a text is empty.
pub fn fill(template: &[u8], numbers: &[usize], texts: &[u8], out: &mut [u8], at: usize) -> usize
    ensures { left result out.new ≡ said_of (sentence_of template.now numbers.now texts.now) out.old at }
{
    let mut end = at;
    let mut numbers = numbers;
    let mut texts = texts;
    let mut part = 0;
    let mut picked = 0;
    for (i, &byte) in template.iter().enumerate() {
        let number = numbers.first().copied().unwrap_or(0);
        let text = first_text(texts);
        end = spell(part == picked, byte, number, text, out, end);
        numbers = numbers_after(byte, numbers);
        texts = texts_after(byte, texts, text);
        part = part_after(byte, part);
        picked = picked_after(byte, picked, number, &template[i + 1..]);
    }
    end
}
