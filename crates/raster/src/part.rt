// Parts of the screen whose bytes lie side by side: painted with no test for each dot.
// Bytes and width are two parameters: each function here hands them on once, and who has many steps to paint, as `circles`, holds them in
// a struct of its own.
ghost use Rattle.std.specs.Prelude.{◌≡◌, ◌+◌, ◌<◌, ◌≤◌, length, replicate};
ghost use Rattle.raster.specs.Paint.{recolour};
ghost use Rattle.raster.specs.Biased.{bias};
ghost use Rattle.raster.specs.Rects.{pixels, in_rect, Room};
ghost use Rattle.raster.specs.Parts.{between, row_part};

use crate::biased::BIAS;
use crate::rect::Rect;

// Every byte. The compiler makes one memset of it; the library's `fill` sets the last byte apart from the others, behind it.
fn set_bytes(bytes: &mut [u8], c: u8)
    ensures { bytes.new ≡ replicate (length bytes.old) c }
{
    bytes.fill_with(move || c);
}

// Columns x0 to x1 of row y, both ends inside: none where x0 is above x1.
pub fn row_part(screen: &mut [u8], w: u32, y: u32, x0: u32, x1: u32, c: u8)
    requires { Room w (row_part y x0 x1) screen.old }
    ensures { screen.new ≡ pixels w (in_rect (row_part y x0 x1)) c screen.old }
{
    if x0 <= x1 {
        let at = (y - BIAS) as usize * (w as usize);
        let from = at + (x0 - BIAS) as usize;
        let to = at + (x1 + 1 - BIAS) as usize;
        set_bytes(&mut screen[from..to], c);
    }
}

// The rows of r, which is as wide as the screen: one part.
pub fn whole_rows(screen: &mut [u8], w: u32, r: Rect, c: u8)
    requires room { Room w r screen.old }
    requires w_nonzero { (0 < w) × (r.l ≡ bias) × (r.r + 1 ≡ w + bias) }
    ensures { screen.new ≡ pixels w (in_rect r) c screen.old }
{
    if r.t <= r.b {
        let from = ((r.t - BIAS) * w) as usize;
        let to = ((r.b + 1 - BIAS) * w) as usize;
        set_bytes(&mut screen[from..to], c);
    }
}
