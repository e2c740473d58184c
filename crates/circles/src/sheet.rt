// What circles are painted on: a rectangle of a lent screen.
ghost use Rattle.std.specs.Prelude.{◌≡◌, ◌&&◌, ◌<◌, ◌≤◌};
ghost use Rattle.raster.specs.Rects.{in_rect, Room};
ghost use Rattle.raster.specs.Parts.{row_part};
ghost use Rattle.circles.specs.Reaches.{pair_b};
ghost use Rattle.circles.specs.Sheets.{Ready, painted};

use raster::biased::Spot;
use raster::part::row_part;
use raster::rect::{Rect, among, store};

// A screen w wide, the rectangle r of it, and the colour that dots get there.
#[derive(Drop)]
pub struct Sheet<'a> {
    pub screen: &'a mut [u8],
    pub w: u32,
    pub r: Rect,
    pub c: u8,
}

impl Sheet<'_> {
    // Columns x0 to x1 of row y, where that is a row of r. A single dot is stored by itself.
    fn row(&mut self, y: u32, x0: u32, x1: u32)
        requires ready { Ready self.old }
        requires within { (self.old.r.l ≤ x0) × (x0 ≤ x1) × (x1 ≤ self.old.r.r) }
        ensures { self.new ≡ painted self.old (in_rect (row_part y x0 x1)) }
    {
        if among(self.r.t, self.r.b, y) {
            if x0 == x1 {
                store(self.screen, self.w, Spot { x: x0, y }, self.c);
            } else {
                row_part(self.screen, self.w, y, x0, x1, self.c);
            }
        }
    }

    // Columns x0 to x1 of the two rows that are d from row y, where they are within r.
    pub fn pair(&mut self, y: u32, d: u32, x0: u32, x1: u32)
        requires ready { Ready self.old }
        requires small { (y < 131072) × (d < 32768) }
        ensures { self.new ≡ painted self.old (pair_b y d x0 x1) }
    {
        let a = self.r.l.max(x0);
        let b = self.r.r.min(x1);
        if a <= b {
            self.row(y.saturating_sub(d), a, b);
            if 0 < d {
                self.row(y + d, a, b);
            }
        }
    }
}
