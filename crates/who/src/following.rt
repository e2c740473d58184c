// One opcode after the other, as a run carries them out, but that nothing is painted: of each painting it is asked whether it
// contains the dot.
ghost use Rattle.std.specs.Prelude.{◌≡◌, cond, ◌<◌};
ghost use Rattle.raster.specs.Frame.{Sane};
ghost use Rattle.player.specs.Shown.{brushed};
ghost use Rattle.player.specs.Writing.{writes};
ghost use Rattle.lent.specs.Lent.{look};
ghost use Rattle.who.specs.Who.{found};
ghost use Rattle.who.specs.Following.{Ready, pixel};

use crate::{Writer, saying};
use brush::{Brush, Figure};
use contains::contains;
use contains::pixel::Pixel;
use lent::{Stack, frame};
use numbers::place::WordIndex;
use raster::frame::{Bounds, Frame};
use rules::environment::Registers;
use step::step::step;

// A step in place of whoever was named before. A call, and a rare one: so who is named lies in memory and does not go round with the
// loop.
#[cold]
#[inline(never)]
fn put(writer: &mut Writer, colour: u8, step: u32, opcode: WordIndex)
    ensures { writer.new ≡ record { number = 0; colour = colour; step = step; opcode = opcode } }
{
    *writer = Writer {
        number: 0,
        colour,
        step,
        opcode,
    };
}

// Who is named behind an opcode that paints: this step where it wrote the dot, else whoever was named before.
#[inline(always)]
fn named(writer: &mut Writer, f: Frame, brush: Brush, d: Pixel, step: u32, opcode: WordIndex)
    requires { Sane f × (d.column < f.bounds.width) × (d.row < f.bounds.height) }
    ensures { writer.new ≡ cond (writes (brushed f brush) (pixel d.column d.row))
        (record { number = 0; colour = brush.colour; step = step; opcode = opcode }) writer.old }
{
    if contains(f, brush, d) {
        put(writer, brush.colour, step, opcode);
    }
}

// Who wrote the dot last. The state is asked as the run begins and behind each opcode, so it runs wherever the loop is.
pub fn last_writer(
    words: &[u16],
    b: Bounds,
    registers: &mut Registers,
    vars: &mut [u32; 64],
    stack: &mut Stack,
    budget: u32,
    d: Pixel,
) -> Writer
    requires ready { Ready words.now b registers.old vars.old stack.old }
    requires inside { (d.column < b.width) × (d.row < b.height) }
    ensures { result ≡ found words.now
        (look b registers.old vars.old stack.old) budget (pixel d.column d.row) }
{
    let mut writer = saying(0);
    if registers.state != 0 {
        return writer;
    }
    for steps in 0..budget {
        let opcode = registers.counter;
        let mut brush = Brush {
            figure: Figure::Every,
            colour: 0,
        };
        let Ok(painted) = step(words, registers, vars, stack, &mut brush) else {
            return writer;
        };
        if painted {
            let f = frame(b, &*registers);
            named(&mut writer, f, brush, d, steps + 1, opcode);
        }
        if registers.state != 0 {
            return writer;
        }
    }
    writer
}
