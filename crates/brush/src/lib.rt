// What is to be painted, so that who says what is painted needs no screen; and the painting of it.
#![tactic(auto)]

ghost use Rattle.std.specs.Prelude.{◌≡◌, ◌<◌, true, pos};
ghost use Rattle.numbers.specs.Coordinate.{is_radius};
ghost use Rattle.raster.specs.Shapes.{moved_by, shifted};
ghost use Rattle.raster.specs.Frame.{Fitting, Word};
ghost use Rattle.raster.specs.Paint as Paint;
ghost use Rattle.raster.specs.Biased.{dot_of, NearB};
ghost use Rattle.brush.specs.Brush.{shape_of};
ghost use Rattle.brush.specs.Near.{is_near};

use circles::circle::{Circle, draw_disc, draw_outline};
use lines::line::{Line, draw_dashed, draw_line};
use raster::biased::{Spot, shift, spot_of};
use raster::dots::{Dot, plot};
use raster::fill::fill;
use raster::frame::Frame;

// A shape, its points relative to an origin, which is not held: a dot, a line, the dots of a line that a pattern paints, a filled
// circle, a circle's outline, every dot.
#[derive(Clone, Copy)]
pub enum Figure {
    Dot(Dot),
    Line(Line),
    Dashed(Line, u32),
    Disc(Circle),
    Outline(Circle),
    Every,
}

// A shape whose coordinates are signed words, and whose radius is one that is not below 0; and its colour.
#[derive(Clone, Copy)]
pub struct Brush {
    pub figure: Figure,
    pub colour: u8,
    ghost near: { is_near figure ≡ true },
}

// A point moved to an origin, biased.
pub fn placed(d: Dot, origin: Dot) -> Spot
    requires { Word d.x × Word d.y × Word origin.x × Word origin.y }
    ensures near { NearB result }
    ensures value { dot_of result ≡ shifted d origin }
{
    shift(spot_of(d), origin)
}

// A radius as it is drawn with.
pub fn radius_of(k: Circle) -> u32
    requires { is_radius k.radius ≡ true }
    ensures small { result < 32768 }
    ensures value { pos result ≡ k.radius }
{
    k.radius as u32
}

// The drawable dots of what the brush holds, moved to the frame's origin, in its colour.
#[tactic(auto, using(crate::proofs::Placing::placings))]
pub fn paint(screen: &mut [u8], f: Frame, brush: Brush)
    requires { Fitting f screen.old }
    ensures { screen.new ≡ Paint.paint f (moved_by f.origin (shape_of brush.figure)) brush.colour screen.old }
{
    let c = brush.colour;
    let o = f.origin;
    match brush.figure {
        Figure::Dot(d) => plot(screen, f, placed(d, o), c),
        Figure::Line(l) => draw_line(screen, f, placed(l.from, o), placed(l.to, o), c),
        Figure::Dashed(l, pattern) => {
            draw_dashed(screen, f, placed(l.from, o), placed(l.to, o), pattern, c)
        }
        Figure::Disc(k) => draw_disc(screen, f, placed(k.centre, o), radius_of(k), c),
        Figure::Outline(k) => draw_outline(screen, f, placed(k.centre, o), radius_of(k), c),
        Figure::Every => fill(screen, f, c),
    }
}
