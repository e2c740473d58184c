// One opcode after the other while the budget lasts: the state comes first, then the opcode, and what it paints.
ghost use Rattle.std.specs.Prelude.{◌≡◌};
ghost use Rattle.player.specs.Run.{runs};
ghost use Rattle.rules.specs.Step.{afgis};
ghost use Rattle.lent.specs.Lent.{look};
ghost use Rattle.run.specs.Inks.{inked};
ghost use Rattle.run.specs.Turns.{Ready, left};

use crate::ink::Ink;
use brush::{Brush, Figure, paint};
use lent::{Stack, frame};
use numbers::place::WordIndex;
use raster::frame::Bounds;
use rules::environment::Registers;
use step::step::step;

// The brush of the opcode at an index, dipped into the ink.
fn dipped<I: Ink>(brush: Brush, ink: &I, opcode: WordIndex) -> Brush
    ensures figure { result.figure ≡ brush.figure }
    ensures colour { result.colour ≡ I.hue ink.now opcode brush.colour }
{
    Brush {
        figure: brush.figure,
        colour: ink.colour(opcode, brush.colour),
    }
}

// How many were carried out. The state is asked as the run begins and behind each opcode, so it runs wherever the loop is.
pub fn turns<I: Ink>(
    words: &[u16],
    b: Bounds,
    registers: &mut Registers,
    vars: &mut [u32; 64],
    stack: &mut Stack,
    screen: &mut [u8],
    ink: &I,
    budget: u32,
) -> u32
    requires { Ready words.now b registers.old vars.old stack.old screen.old }
    ensures { left (look b registers.new vars.new stack.new) screen.new result
        ≡ runs (inked (I.hue ink.now) (afgis words.now)) budget
        (look b registers.old vars.old stack.old) screen.old 0 }
{
    if registers.state != 0 {
        return 0;
    }
    for steps in 0..budget {
        let opcode = registers.counter;
        let mut brush = Brush {
            figure: Figure::Every,
            colour: 0,
        };
        let painted = match step(words, registers, vars, stack, &mut brush) {
            Ok(painted) => painted,
            Err(refusal) => {
                registers.stop(refusal);
                return steps;
            }
        };
        if painted {
            paint(screen, frame(b, registers), dipped(brush, ink, opcode));
        }
        if registers.state != 0 {
            return steps + 1;
        }
    }
    budget
}
