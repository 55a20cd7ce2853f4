// What is to be said of a job, and the line that says it.
#![tactic(auto)]

ghost use Rattle.std.specs.Prelude.{◌≡◌, [], ◌++◌, ◌≤◌, length};
ghost use Rattle.laws.specs.Bytes.{put};
ghost use Rattle.refusal.specs.Delivery.{delivery, delivered};
ghost use Rattle.verdict.specs.Report.{in_fields, tab, report_line};

use refusal::Refusal;

#[derive(Clone, Copy)]
pub enum Verdict {
    Pass,
    // The event, from 1, that fails on some board.
    Event(usize),
    // The end condition that fails, by the number that the report line prints: no enum, which would only be numbered.
    End(u8),
    // The lowest flash offset that is wrong on some board.
    Flash(usize),
    Refused(Refusal),
}

// The bytes of the line's word and the tab behind it, and of a line without its digits.
const WORD: usize = 7;

const PLAIN: usize = 9;

// The line's word, and the tab behind it.
fn word(verdict: Verdict) -> [u8; WORD]
    ensures { result ≡ (in_fields verdict).word ++ tab }
{
    match verdict {
        Verdict::Pass => *b"ACCEPT\t",
        Verdict::Event(_) | Verdict::End(_) | Verdict::Flash(_) => *b"REJECT\t",
        Verdict::Refused(_) => *b"REFUSE\t",
    }
}

fn kind(verdict: Verdict) -> usize
    ensures { result ≡ (in_fields verdict).kind }
{
    match verdict {
        Verdict::Pass => 0,
        Verdict::Event(_) => 1,
        Verdict::End(_) => 2,
        Verdict::Flash(_) => 3,
        Verdict::Refused(why) => usize::from(why.number()),
    }
}

fn number(verdict: Verdict) -> usize
    ensures { result ≡ (in_fields verdict).number }
{
    match verdict {
        Verdict::Pass => 0,
        Verdict::Event(event) => event,
        Verdict::End(condition) => usize::from(condition),
        Verdict::Flash(offset) => offset,
        Verdict::Refused(why) => why.line(),
    }
}

// Writes the line to the front of `out`, and gives its length.
fn write_line(verdict: Verdict, out: &mut [u8]) -> usize
    requires { length (report_line verdict) ≤ length out.old }
    ensures { (out.new ≡ put 0 (report_line verdict) out.old) × (result ≡ length (report_line verdict)) }
{
    buffer::put(out, 0, &word(verdict));
    let at = decimal::write_field(kind(verdict), b'\t', out, WORD);
    decimal::write_field(number(verdict), b'\n', out, at)
}

// Writes the line that says the verdict to the front of `out`.
pub fn report(verdict: Verdict, out: &mut [u8]) -> Result<usize, Refusal>
    ensures { delivery result out.new ≡ delivered [] (report_line verdict) out.old }
{
    if out.len() < PLAIN + decimal::digits(kind(verdict)) + decimal::digits(number(verdict)) {
        return Err(Refusal::Output);
    }
    Ok(write_line(verdict, out))
}
