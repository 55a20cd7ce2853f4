// Every refusal of every call, in one enum, with its number and the line that it names. A call that can refuse answers
// with a Result of it.
#![tactic(auto)]

ghost use Rattle.std.specs.Prelude.{◌≡◌};
ghost use Rattle.refusal.specs.Refusal.{number_of, line_named};

#[derive(Clone, Copy)]
pub enum Refusal {
    Memory,
    Block,
    Reply,
    State,
    Request,
    Work,
    Image,
    Card,
    Text,
    Line(usize),
    Output,
    Protected,
    File,
    Record(usize),
    Outside,
    Twice,
    Unended,
    Empty,
}

impl Refusal {
    // The number that documents, programs and people use. No `From`: a refusal has a line too, and `u8::from(why)`
    // would not say which of the two it is.
    pub fn number(self) -> u8
        ensures { result ≡ number_of self }
    {
        match self {
            Refusal::Memory => 1,
            Refusal::Block => 2,
            Refusal::Reply => 3,
            Refusal::State => 4,
            Refusal::Request => 5,
            Refusal::Work => 6,
            Refusal::Image => 7,
            Refusal::Card => 8,
            Refusal::Text => 9,
            Refusal::Line(_) => 10,
            Refusal::Output => 11,
            Refusal::Protected => 12,
            Refusal::File => 13,
            Refusal::Record(_) => 20,
            Refusal::Outside => 21,
            Refusal::Twice => 22,
            Refusal::Unended => 23,
            Refusal::Empty => 24,
        }
    }

    // The line of the text that is at fault, from 1, or 0 where the refusal names none: so the report line prints it,
    // and each caller would unwrap an Option.
    pub fn line(self) -> usize
        ensures { result ≡ line_named self }
    {
        match self {
            Refusal::Line(line) | Refusal::Record(line) => line,
            Refusal::Memory
            | Refusal::Block
            | Refusal::Reply
            | Refusal::State
            | Refusal::Request
            | Refusal::Work
            | Refusal::Image
            | Refusal::Card
            | Refusal::Text
            | Refusal::Output
            | Refusal::Protected
            | Refusal::File
            | Refusal::Outside
            | Refusal::Twice
            | Refusal::Unended
            | Refusal::Empty => 0,
        }
    }
}
