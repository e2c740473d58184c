// Every drawable dot: the drawable rectangle first, and then its rows.
ghost use Rattle.std.specs.Prelude.{◌≡◌, ◌<◌};
ghost use Rattle.raster.specs.Shapes.{all};
ghost use Rattle.raster.specs.Frame.{Fitting};
ghost use Rattle.raster.specs.Paint.{paint};
ghost use Rattle.raster.specs.Rects.{pixels, in_rect, Room};

use crate::biased::BIAS;
use crate::frame::Frame;
use crate::part::{row_part, whole_rows};
use crate::rect::{Rect, rect_of};

// The pixels of r, each row as one part.
fn fill_rows(screen: &mut [u8], w: u32, r: Rect, c: u8)
    requires { Room w r screen.old }
    ensures { screen.new ≡ pixels w (in_rect r) c screen.old }
{
    for y in r.t..=r.b {
        row_part(screen, w, y, r.l, r.r, c);
    }
}

// The pixels of r: all in one part where r is as wide as the screen.
fn fill_rect(screen: &mut [u8], w: u32, r: Rect, c: u8)
    requires room { Room w r screen.old }
    requires w_nonzero { 0 < w }
    ensures { screen.new ≡ pixels w (in_rect r) c screen.old }
{
    if r.l == BIAS && r.r + 1 == w + BIAS {
        whole_rows(screen, w, r, c);
    } else {
        fill_rows(screen, w, r, c);
    }
}

// The whole screen, where it is drawable.
pub fn fill(screen: &mut [u8], f: Frame, c: u8)
    requires { Fitting f screen.old }
    ensures { screen.new ≡ paint f all c screen.old }
{
    fill_rect(screen, f.bounds.width, rect_of(f), c);
}
