// The line that an event prints: fields of fixed width in capital hexadecimal, parted by a space.
use crate::codes;
use crate::codes::Spelled;
use buffer::byte_at;
use loader::{Answer, Stepped};
use vectors::digest;

// Which answer it is, in the order of the letters.
#[derive(Clone, Copy)]
enum Letter {
    Accepted,
    Payload,
    Stall,
    Nothing,
    Refused,
}

// An answer in numbers: which it is, and the reply's length or the refusal's number.
fn numbers_of(answer: Answer) -> (Letter, usize) {
    match answer {
        Answer::Accepted => (Letter::Accepted, 0),
        Answer::Reply(n) => (Letter::Payload, n),
        Answer::Stall => (Letter::Stall, 0),
        Answer::Silent => (Letter::Nothing, 0),
        Answer::Refused(why) => (Letter::Refused, why.number() as usize),
    }
}

// The answer and the device, in front of the line. `%` prints the low byte of its number, so a number of four bytes is
// listed four times, divided down.
fn print_device(rt: &impl Print, stepped: Stepped) {
    let device = stepped.device;
    let (letter, value) = numbers_of(stepped.answer);
    let p = device.pointer as usize;
    let command = Spelled::from(device.pending);
    let a = command.address as usize;
    let n = command.block as usize;
    let c = command.count as usize;
    feed::print(
        rt,
        b"[A|P|S|N|R] %% % % %%%% # %%%% %% %% ",
        &[
            letter as usize,
            value / 256,
            value,
            codes::code(device.mode) as usize,
            device.status as usize,
            p / 16777216,
            p / 65536,
            p / 256,
            p,
            command.kind as usize,
            a / 16777216,
            a / 65536,
            a / 256,
            a,
            n / 256,
            n,
            c / 256,
            c,
        ],
    );
}

// Behind them the digest of each buffer, and the reply buffer's first six bytes, if it has any.
pub(crate) fn print(rt: &impl Print, stepped: Stepped, memory: &[u8], block: &[u8], reply: &[u8]) {
    print_device(rt, stepped);
    let m = digest(memory);
    let b = digest(block);
    let y = digest(reply);
    feed::print(
        rt,
        b"%%%% %%%% %%%% [|%%%%%%]\n",
        &[
            m / 16777216,
            m / 65536,
            m / 256,
            m,
            b / 16777216,
            b / 65536,
            b / 256,
            b,
            y / 16777216,
            y / 65536,
            y / 256,
            y,
            reply.len(),
            byte_at(reply, 0) as usize,
            byte_at(reply, 1) as usize,
            byte_at(reply, 2) as usize,
            byte_at(reply, 3) as usize,
            byte_at(reply, 4) as usize,
            byte_at(reply, 5) as usize,
        ],
    );
}
