// Clip mode and window, colour, line pattern, position, origin.
ghost use Rattle.std.specs.Prelude.{◌≡◌, ℕ};
ghost use Rattle.rules.specs.Op as Op;
ghost use Rattle.rules.specs.Opcodes as Opcodes;
ghost use Rattle.rules.specs.Opcodes.{rule};
ghost use Rattle.lent.specs.Shown.{answers};
ghost use Rattle.lent.specs.Leaves.{Goes};

use crate::point::{point_by, point_of};
use fetch::source::Taken;
use numbers::value::low8;
use player::Upshot;
use player::refusal::Refusal;
use raster::dots::Dot;
use raster::frame::Window;
use rules::environment::Registers;

// a: the mode.
#[inline(always)]
pub fn clip_mode(taken: Taken, registers: &mut Registers) -> Upshot
    ensures { (n : ℕ) → Goes result (answers taken (λ o. rule Op.ClipMode o n)) registers.old registers.new }
{
    let f = taken?;
    let mode = f.operands.a;
    if 2 < mode {
        return Err(registers.refused(Refusal::NotAllowed));
    }
    registers.mode = mode;
    registers.counter = f.next;
    Ok(None)
}

// The window of two corners.
fn window(p: Dot, q: Dot) -> Window
    ensures { result ≡ Opcodes.window p q }
{
    Window {
        x0: p.x,
        y0: p.y,
        x1: q.x,
        y1: q.y,
    }
}

// a, b: x0 and y0; c, d: x1 and y1.
#[inline(always)]
pub fn clip_window(taken: Taken, registers: &mut Registers) -> Upshot
    ensures { (n : ℕ) → Goes result (answers taken (λ o. rule Op.ClipWindow o n)) registers.old registers.new }
{
    let f = taken?;
    let o = f.operands;
    let outside = registers.refused(Refusal::Outside);
    let p = point_of(o.a, o.b).ok_or(outside)?;
    let q = point_of(o.c, o.d).ok_or(outside)?;
    registers.window = window(p, q);
    registers.counter = f.next;
    Ok(None)
}

// The low 8 bits. a: the colour's long.
#[inline(always)]
pub fn colour(taken: Taken, registers: &mut Registers) -> Upshot
    ensures { (n : ℕ) → Goes result (answers taken (λ o. rule Op.Colour o n)) registers.old registers.new }
{
    let f = taken?;
    registers.colour = low8(f.operands.a);
    registers.counter = f.next;
    Ok(None)
}

// a: the pattern's 32 bits.
#[inline(always)]
pub fn pattern(taken: Taken, registers: &mut Registers) -> Upshot
    ensures { (n : ℕ) → Goes result (answers taken (λ o. rule Op.Pattern o n)) registers.old registers.new }
{
    let f = taken?;
    registers.pattern = f.operands.a;
    registers.counter = f.next;
    Ok(None)
}

// a, b: x and y.
#[inline(always)]
pub fn move_to(taken: Taken, registers: &mut Registers) -> Upshot
    ensures { (n : ℕ) → Goes result (answers taken (λ o. rule Op.MoveTo o n)) registers.old registers.new }
{
    let f = taken?;
    let o = f.operands;
    let outside = registers.refused(Refusal::Outside);
    registers.position = point_of(o.a, o.b).ok_or(outside)?;
    registers.counter = f.next;
    Ok(None)
}

// a, b: dx and dy.
#[inline(always)]
pub fn move_by(taken: Taken, registers: &mut Registers) -> Upshot
    ensures { (n : ℕ) → Goes result (answers taken (λ o. rule Op.MoveBy o n)) registers.old registers.new }
{
    let f = taken?;
    let o = f.operands;
    let outside = registers.refused(Refusal::Outside);
    registers.position = point_by(registers.position, o.a, o.b).ok_or(outside)?;
    registers.counter = f.next;
    Ok(None)
}

// a, b: x and y.
#[inline(always)]
pub fn origin(taken: Taken, registers: &mut Registers) -> Upshot
    ensures { (n : ℕ) → Goes result (answers taken (λ o. rule Op.Origin o n)) registers.old registers.new }
{
    let f = taken?;
    let o = f.operands;
    let outside = registers.refused(Refusal::Outside);
    registers.origin = point_of(o.a, o.b).ok_or(outside)?;
    registers.counter = f.next;
    Ok(None)
}
