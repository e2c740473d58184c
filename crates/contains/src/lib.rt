// Whether what a brush paints contains a dot, in constant time for every shape.
#![tactic(auto)]

pub mod pixel; // a column and a row of a screen
mod line; // a line, also a dashed one
mod circle; // a circle, filled or its outline

ghost use Rattle.std.specs.Prelude.{◌≡◌, ◌&&◌, ◌<◌, pos};
ghost use Rattle.raster.specs.Shapes.{dot, moved_by};
ghost use Rattle.raster.specs.Frame.{drawable, Word, Sane};
ghost use Rattle.raster.specs.Biased.{dot_of};
ghost use Rattle.brush.specs.Brush.{shape_of};

use crate::circle::{on_disc, on_outline};
use crate::line::{on_dashed, on_line};
use crate::pixel::Pixel;
use brush::{Brush, Figure, placed, radius_of};
use raster::biased::Spot;
use raster::dots::Dot;
use raster::frame::Frame;
use raster::rect::visible;

#[inline(always)]
fn on_dot(p: Spot, d: Pixel) -> bool
    ensures { result ≡ dot (dot_of p) (pos d.column) (pos d.row) }
{
    p == d.spot()
}

// The shape that the brush holds, moved to the origin, has a dot in this pixel.
#[inline(always)]
#[tactic(auto, using(crate::proofs::Figures::figures))]
fn on_shape(brush: Brush, o: Dot, d: Pixel) -> bool
    requires { Word o.x × Word o.y }
    ensures { result ≡ moved_by o (shape_of brush.figure) (pos d.column) (pos d.row) }
{
    match brush.figure {
        Figure::Dot(p) => on_dot(placed(p, o), d),
        Figure::Line(l) => on_line(placed(l.from, o), placed(l.to, o), d),
        Figure::Dashed(l, pattern) => on_dashed(placed(l.from, o), placed(l.to, o), pattern, d),
        Figure::Disc(k) => on_disc(placed(k.centre, o), radius_of(k), d),
        Figure::Outline(k) => on_outline(placed(k.centre, o), radius_of(k), d),
        Figure::Every => true,
    }
}

// `brush::paint` would write this pixel of the screen.
#[inline(always)]
pub fn contains(f: Frame, brush: Brush, d: Pixel) -> bool
    requires { Sane f × (d.column < f.bounds.width) × (d.row < f.bounds.height) }
    ensures { result ≡ (drawable f (pos d.column) (pos d.row) && moved_by f.origin (shape_of brush.figure) (pos d.column) (pos d.row)) }
{
    if !visible(f, d.spot()) {
        return false;
    }
    on_shape(brush, f.origin, d)
}
