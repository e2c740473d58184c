// Document 02, T-08, who painted this dot: a list is run without a screen, and the last step that wrote the dot is named.
#![tactic(auto)]

mod pixel; // a dot as a column and a row of a screen
mod following; // one opcode after the other, and who is named so far

ghost use Rattle.std.specs.Prelude.{◌≡◌, ◌*◌};
ghost use Rattle.who.specs.Who.{saying, Promise};

use crate::following::last_writer;
use crate::pixel::pixel_of;
use lent::Stack;
use numbers::place::WordIndex;
use player::refusal::Refusal;
use raster::dots::Dot;
use raster::frame::Bounds;
use rules::environment::Env;
use run::door::door;

// 0 and the step that last wrote the dot, counted from 1, the word index of its opcode and the colour that it painted; step 0, and
// the others 0 too, where no step wrote it. Any other number refuses, and the others are 0.
#[repr(C)]
#[derive(Clone, Copy)]
pub struct Writer {
    pub number: u8,
    pub colour: u8,
    pub step: u32,
    pub opcode: WordIndex,
}

// A number, and nobody named.
#[inline(always)]
pub fn saying(number: u8) -> Writer
    ensures { result ≡ saying number }
{
    Writer {
        number,
        colour: 0,
        step: 0,
        opcode: WordIndex(0),
    }
}

// The bytes of a screen of that size.
fn area(b: Bounds) -> usize
    ensures { result ≡ b.width * b.height }
{
    (b.width as usize) * (b.height as usize)
}

// Any list, environment, budget and dot.
pub fn who(list: &[u16], env: Env, budget: u32, dot: Dot) -> Writer
    ensures { Promise list.now env budget dot result }
{
    let b = env.bounds;
    let mut registers = env.registers;
    let mut vars = env.variables;
    let returns = env.stack;
    let repeats = env.repeats;
    let mut stack = Stack {
        returns,
        nesting: env.nesting,
        repeats,
    };
    if let Err(unfit) = door(list.len(), area(b), b, registers, &stack, budget) {
        return saying(unfit.number());
    }
    let Some(d) = pixel_of(b, dot) else {
        return saying(Refusal::Outside.number());
    };
    last_writer(list, b, &mut registers, &mut vars, &mut stack, budget, d)
}

// The same for C.
pub fn ovenlute_who(list: &[u16], env: Env, budget: u32, dot: Dot) -> Writer
    ensures { Promise list.now env budget dot result }
{
    who(list, env, budget, dot)
}
