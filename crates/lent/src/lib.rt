// What a run lends its opcodes beside the registers and the variables: the stacked returns and the open repeats.
#![tactic(auto)]

ghost use Rattle.std.specs.Prelude.{◌≡◌, List, ℕ};
ghost use Rattle.rules.specs.Environment as Environment;
ghost use Rattle.lent.specs.Lent.{look};

use numbers::place::WordIndex;
use raster::frame::{Bounds, Frame};
use rules::environment::{Registers, Repeat};

// The first return stacked at the start of the returns, the outermost repeat at the start of the repeats; the nesting counts the
// open ones, and the registers have how many returns are stacked.
#[derive(Clone, Copy)]
pub struct Stack {
    pub returns: [WordIndex; 16],
    pub nesting: u32,
    pub repeats: [Repeat; 8],
}

// Size and pane, origin, mode and window: what may be drawn on, and from where.
pub fn frame(bounds: Bounds, registers: &Registers) -> Frame
    ensures { (vs : List ℕ) (st : Stack) → result ≡ Environment.frame (look bounds registers.now vs st) }
{
    Frame {
        bounds,
        origin: registers.origin,
        mode: registers.mode,
        window: registers.window,
    }
}
