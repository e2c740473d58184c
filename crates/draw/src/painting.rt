// Dots, lines, circles and clearing: what is to be painted is answered in a brush, once the last check has passed.
ghost use Rattle.std.specs.Prelude.{◌≡◌, ℕ, true};
ghost use Rattle.circles.specs.Circle as Circles;
ghost use Rattle.brush.specs.Brush.{shape_of};
ghost use Rattle.brush.specs.Near.{is_near};
ghost use Rattle.rules.specs.Environment.{moved};
ghost use Rattle.rules.specs.Op as Op;
ghost use Rattle.rules.specs.Opcodes as Opcodes;
ghost use Rattle.rules.specs.Opcodes.{dot_fits, dots, typed as typed_shape, paints, rule};
ghost use Rattle.lent.specs.Shown.{answers, does};
ghost use Rattle.lent.specs.Leaves.{Goes};

use crate::point::{circle_of, point_by, point_of};
use brush::{Brush, Figure};
use circles::circle::Circle;
use fetch::source::Taken;
use lines::line::Line;
use numbers::place::WordIndex;
use numbers::value::low8;
use player::Upshot;
use player::refusal::Refusal;
use raster::dots::Dot;
use rules::environment::Registers;

// One dot at the point (x, y).
fn dot_at(x: u32, y: u32, colour: u8, next: WordIndex, registers: &mut Registers) -> Upshot
    ensures { Goes result (does (dots (Opcodes.point x y) colour) next) registers.old registers.new }
{
    let p = point_of(x, y).ok_or(registers.refused(Refusal::Outside))?;
    registers.counter = next;
    Ok(Some(Brush {
        figure: Figure::Dot(p),
        colour,
    }))
}

// a, b: x and y.
#[inline(always)]
pub fn pixel(taken: Taken, registers: &mut Registers) -> Upshot
    ensures { (n : ℕ) → Goes result (answers taken (λ o. rule Op.Pixel o n)) registers.old registers.new }
{
    let f = taken?;
    let o = f.operands;
    dot_at(o.a, o.b, registers.colour, f.next, registers)
}

// a, b: x and y; c: the colour's long.
#[inline(always)]
pub fn pixel_colour(taken: Taken, registers: &mut Registers) -> Upshot
    ensures { (n : ℕ) → Goes result (answers taken (λ o. rule Op.PixelColour o n)) registers.old registers.new }
{
    let f = taken?;
    let o = f.operands;
    dot_at(o.a, o.b, low8(o.c), f.next, registers)
}

// A type above the last one that is drawn.
fn other_type(last: u32, given: u32) -> bool
    ensures { result ≡ Opcodes.other_type last given }
{
    last < given
}

// A line: in type 0 all of it, else what the pattern paints.
fn typed(given: u32, pattern: u32, l: Line) -> Figure
    ensures shape { shape_of result ≡ typed_shape given pattern l }
    ensures near { is_near result ≡ is_near (Figure.Line l) }
{
    if given == 0 {
        Figure::Line(l)
    } else {
        Figure::Dashed(l, pattern)
    }
}

// A line in the foreground colour. a: its type; b, c: x0 and y0; d, e: x1 and y1.
#[inline(always)]
pub fn line(taken: Taken, registers: &mut Registers) -> Upshot
    ensures { (n : ℕ) → Goes result (answers taken (λ o. rule Op.Line o n)) registers.old registers.new }
{
    let f = taken?;
    let o = f.operands;
    if other_type(1, o.a) {
        return Err(registers.refused(Refusal::NotAllowed));
    }
    let outside = registers.refused(Refusal::Outside);
    let from = point_of(o.b, o.c).ok_or(outside)?;
    let to = point_of(o.d, o.e).ok_or(outside)?;
    registers.counter = f.next;
    Ok(Some(Brush {
        figure: typed(o.a, registers.pattern, Line { from, to }),
        colour: registers.colour,
    }))
}

// A line from the position to q, and the position there.
fn draw_to(given: u32, q: Dot, next: WordIndex, registers: &mut Registers) -> Upshot
    requires { (dot_fits registers.old.position ≡ true) × (dot_fits q ≡ true) }
    ensures { Goes result
        (does (λ e. paints (typed_shape given e.pen.pattern (record { from = e.pen.position; to = q })) e.pen.colour (moved q e)) next)
        registers.old registers.new }
{
    let from = registers.position;
    registers.position = q;
    registers.counter = next;
    Ok(Some(Brush {
        figure: typed(given, registers.pattern, Line { from, to: q }),
        colour: registers.colour,
    }))
}

// a: the line's type; b, c: x and y.
#[inline(always)]
pub fn line_to(taken: Taken, registers: &mut Registers) -> Upshot
    requires { dot_fits registers.old.position ≡ true }
    ensures { (n : ℕ) → Goes result (answers taken (λ o. rule Op.LineTo o n)) registers.old registers.new }
{
    let f = taken?;
    let o = f.operands;
    if other_type(1, o.a) {
        return Err(registers.refused(Refusal::NotAllowed));
    }
    let q = point_of(o.b, o.c).ok_or(registers.refused(Refusal::Outside))?;
    draw_to(o.a, q, f.next, registers)
}

// a: the line's type; b, c: dx and dy.
#[inline(always)]
pub fn line_by(taken: Taken, registers: &mut Registers) -> Upshot
    requires { dot_fits registers.old.position ≡ true }
    ensures { (n : ℕ) → Goes result (answers taken (λ o. rule Op.LineBy o n)) registers.old registers.new }
{
    let f = taken?;
    let o = f.operands;
    if other_type(1, o.a) {
        return Err(registers.refused(Refusal::NotAllowed));
    }
    let q = point_by(registers.position, o.b, o.c).ok_or(registers.refused(Refusal::Outside))?;
    draw_to(o.a, q, f.next, registers)
}

// A circle, filled or the outline alone.
fn round(filled: bool, k: Circle) -> Figure
    ensures shape { shape_of result ≡ Circles.circle filled k }
    ensures near { is_near result ≡ is_near (Figure.Disc k) }
{
    if filled {
        Figure::Disc(k)
    } else {
        Figure::Outline(k)
    }
}

// A circle in the foreground colour, filled or the outline alone. a: its type; b, c: x and y of its centre; d: its radius.
#[inline(always)]
pub fn circle(taken: Taken, filled: bool, registers: &mut Registers) -> Upshot
    ensures { Goes result (answers taken (Opcodes.circles (Circles.circle filled))) registers.old registers.new }
{
    let f = taken?;
    let o = f.operands;
    if other_type(0, o.a) {
        return Err(registers.refused(Refusal::NotAllowed));
    }
    let k = circle_of(o.b, o.c, o.d).ok_or(registers.refused(Refusal::Outside))?;
    registers.counter = f.next;
    Ok(Some(Brush {
        figure: round(filled, k),
        colour: registers.colour,
    }))
}

// Every drawable pixel. a: the colour's long; b: the wait word, which is ignored.
#[inline(always)]
pub fn clear(taken: Taken, registers: &mut Registers) -> Upshot
    ensures { (n : ℕ) → Goes result (answers taken (λ o. rule Op.Clear o n)) registers.old registers.new }
{
    let f = taken?;
    registers.counter = f.next;
    Ok(Some(Brush {
        figure: Figure::Every,
        colour: low8(f.operands.a),
    }))
}
