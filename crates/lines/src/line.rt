// A line's dots, all of them or those of a pattern: only the drawable ones are walked.
ghost use Rattle.std.specs.Prelude.{◌≡◌};
ghost use Rattle.raster.specs.Frame.{Fitting};
ghost use Rattle.raster.specs.Paint.{paint};
ghost use Rattle.raster.specs.Biased.{NearB};
ghost use Rattle.lines.specs.Line.{line};
ghost use Rattle.lines.specs.Dashes.{dashed};
ghost use Rattle.lines.specs.Courses.{line_of};

use crate::course::FairCourse;
use crate::dashes::{Dashed, Pattern, Solid};
use crate::span::dots_within;
use crate::walk::walk;
use raster::biased::Spot;
use raster::dots::Dot;
use raster::frame::Frame;
use raster::rect::rect_of;

#[repr(C)]
#[derive(Clone, Copy)]
pub struct Line {
    pub from: Dot,
    pub to: Dot,
}

// A pattern of all ones, which paints every dot.
pub const SOLID: u32 = 0xFFFFFFFF;

// The drawable dots of the line from p to q that the pattern paints.
fn draw<P: Pattern>(screen: &mut [u8], f: Frame, p: Spot, q: Spot, pattern: P, c: u8)
    requires fitting { Fitting f screen.old }
    requires near_b { NearB p × NearB q }
    ensures { screen.new ≡ paint f (dashed (P.bits pattern) (line_of p q)) c screen.old }
{
    let o = FairCourse::between(p, q);
    let s = dots_within(rect_of(f), o);
    if s.from < s.past {
        walk(screen, f.bounds.width, o, s, pattern, c);
    }
}

// The drawable dots of the line from p to q. That both are near is asked, and no type says it: `brush::placed` makes a spot
// near and its contract tells it, and every course would have to take the type apart: no plainer.
pub fn draw_line(screen: &mut [u8], f: Frame, p: Spot, q: Spot, c: u8)
    requires fitting { Fitting f screen.old }
    requires near_b { NearB p × NearB q }
    ensures { screen.new ≡ paint f (line (line_of p q)) c screen.old }
{
    draw(screen, f, p, q, Solid, c);
}

// Those of them that the pattern paints.
pub fn draw_dashed(screen: &mut [u8], f: Frame, p: Spot, q: Spot, pattern: u32, c: u8)
    requires fitting { Fitting f screen.old }
    requires near_b { NearB p × NearB q }
    ensures { screen.new ≡ paint f (dashed pattern (line_of p q)) c screen.old }
{
    draw(screen, f, p, q, Dashed { pattern }, c);
}
