// What every player shares.
#![tactic(auto)]

pub mod refusal; // why a call or an opcode is refused

ghost use Rattle.std.specs.Prelude.{◌≡◌};
ghost use Rattle.player.specs.Player.{verdict};

use brush::Brush;
use numbers::place::WordIndex;

// What a call comes back with, and what a refusal says: a number of document 01's table and, with 20 to 29, the index of the
// word at fault. All other numbers carry 0. A number, as C and the rules have it; `refusal` has the names.
#[derive(Clone, Copy, Debug, PartialEq, Eq)]
pub struct Verdict {
    pub number: u8,
    pub place: WordIndex,
}

// A number that carries 0.
pub fn carrying_0(number: u8) -> Verdict
    ensures { result ≡ verdict number }
{
    Verdict {
        number,
        place: WordIndex(0),
    }
}

// What an opcode came to: it is carried out and paints nothing, or with a brush; or it is refused.
pub type Upshot = Result<Option<Brush>, Verdict>;

// The state that an environment holds: stopped with the refusal.
#[derive(Clone, Copy, Debug, PartialEq, Eq)]
pub enum State {
    Running,
    Ended,
    Stopped(Verdict),
}
