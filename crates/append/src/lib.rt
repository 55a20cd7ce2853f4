// Words go into a lent buffer one behind the other, and each call gives the place behind them. What finds no room is
// left out, so that no caller has to reckon how long a line becomes. Buffer and place go side by side, in no struct:
// each function would have to promise besides that the struct keeps its reference.
#![tactic(auto)]

ghost use Rattle.std.specs.Prelude.{◌≡◌};
ghost use Rattle.append.specs.Said.{left, said_of};

// The bytes of `text` go over those of `out` from place `at` on, as many as there is room for.
#[tactic(auto, using(crate::proofs::Said::said_none, crate::proofs::Said::said_fit))]
pub fn say(text: &[u8], out: &mut [u8], at: usize) -> usize
    ensures { left result out.new ≡ said_of text.now out.old at }
{
    if out.len() <= at {
        return at;
    }
    let count = text.len().min(out.len() - at);
    buffer::put(out, at, &text[..count]);
    at + count
}
