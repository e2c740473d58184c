// One dot.
ghost use Rattle.std.specs.Prelude.{◌≡◌};
ghost use Rattle.raster.specs.Shapes.{dot};
ghost use Rattle.raster.specs.Frame.{Fitting};
ghost use Rattle.raster.specs.Biased.{dot_of};
ghost use Rattle.raster.specs.Paint.{paint};

use crate::biased::Spot;
use crate::frame::Frame;
use crate::rect::{store, visible};

#[repr(C)]
#[derive(Clone, Copy)]
pub struct Dot {
    pub x: i32,
    pub y: i32,
}

// The dot, where it is drawable.
pub fn plot(screen: &mut [u8], f: Frame, p: Spot, c: u8)
    requires { Fitting f screen.old }
    ensures { screen.new ≡ paint f (dot (dot_of p)) c screen.old }
{
    if visible(f, p) {
        store(screen, f.bounds.width, p, c);
    }
}
