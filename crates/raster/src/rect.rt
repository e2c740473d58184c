// Rectangles of biased points: the drawable points, and a dot's byte.
ghost use Rattle.std.specs.Prelude.{◌≡◌, ◌<◌, ◌≤◌, ◌&&◌, ◌||◌, ◌==◌, nat_le, slice_set};
ghost use Rattle.raster.specs.Frame.{Coord, Sane};
ghost use Rattle.raster.specs.Rects.{byte_b, inside_b, pane_rect, window_rect, rect_from, clip_rect, overlap_of, rect_of, Placed, Seen};

use crate::biased::{BIAS, Spot, biased, shift};
use crate::frame::{Frame, Pane, Window};

// Columns l to r of rows t to b, both ends inside: none where l is above r, or t above b.
#[derive(Clone, Copy)]
pub struct Rect {
    pub l: u32,
    pub t: u32,
    pub r: u32,
    pub b: u32,
}

impl Rect {
    // From one corner to the other.
    fn from_corners(p: Spot, q: Spot) -> Rect
        ensures { result ≡ rect_from p q }
    {
        Rect {
            l: p.x,
            t: p.y,
            r: q.x,
            b: q.y,
        }
    }

    // The points of both.
    fn overlap(self, other: Rect) -> Rect
        ensures { result ≡ overlap_of self other }
    {
        Rect {
            l: self.l.max(other.l),
            t: self.t.max(other.t),
            r: self.r.min(other.r),
            b: self.b.min(other.b),
        }
    }

    fn contains(self, p: Spot) -> bool
        ensures { result ≡ inside_b self p.x p.y }
    {
        (self.l..=self.r).contains(&p.x) && (self.t..=self.b).contains(&p.y)
    }
}

fn pane_rect(p: Pane) -> Rect
    requires { (p.left < 2048) × (p.top < 2048) × (p.right < 2048) × (p.bottom < 2048) }
    ensures { result ≡ pane_rect p }
{
    Rect {
        l: p.left + BIAS,
        t: p.top + BIAS,
        r: p.right + BIAS,
        b: p.bottom + BIAS,
    }
}

fn window_rect(w: Window) -> Rect
    requires { Coord w.x0 × Coord w.y0 × Coord w.x1 × Coord w.y1 }
    ensures { result ≡ window_rect w }
{
    Rect {
        l: biased(w.x0),
        t: biased(w.y0),
        r: biased(w.x1),
        b: biased(w.y1),
    }
}

// The clip window where it lies: in mode 1 relative to the origin.
fn clip_rect(f: Frame) -> Rect
    requires { Sane f }
    ensures { result ≡ clip_rect f }
{
    let w = window_rect(f.window);
    if f.mode != 1 {
        return w;
    }
    let p = shift(Spot { x: w.l, y: w.t }, f.origin);
    let q = shift(Spot { x: w.r, y: w.b }, f.origin);
    Rect::from_corners(p, q)
}

// The drawable points.
pub fn rect_of(f: Frame) -> Rect
    requires { Sane f }
    ensures { result ≡ rect_of f }
{
    let p = pane_rect(f.bounds.pane);
    let w = clip_rect(f);
    if f.mode == 0 {
        return p;
    }
    p.overlap(w)
}

// x is one of lo to hi, by one comparison, where a range's `contains` makes two: from below lo it wraps to above them all.
pub fn among(lo: u32, hi: u32, x: u32) -> bool
    requires { lo ≤ hi }
    ensures { result ≡ (nat_le lo x && nat_le x hi) }
{
    x.wrapping_sub(lo) <= hi - lo
}

// The mode lets the dot through.
fn in_clip(f: Frame, p: Spot) -> bool
    requires { Sane f }
    ensures { result ≡ (f.mode == 0 || inside_b (clip_rect f) p.x p.y) }
{
    f.mode == 0 || clip_rect(f).contains(p)
}

// The dot is drawable: what a single dot asks in place of the rectangle. No pane is empty.
pub fn visible(f: Frame, p: Spot) -> bool
    requires { Sane f }
    ensures { result ≡ inside_b (rect_of f) p.x p.y }
{
    if !in_clip(f, p) {
        return false;
    }
    let pane = pane_rect(f.bounds.pane);
    among(pane.l, pane.r, p.x) && among(pane.t, pane.b, p.y)
}

// The dot's byte on a screen of w columns.
pub fn byte_of(w: u32, p: Spot) -> usize
    requires { Placed w p }
    ensures { result ≡ byte_b w p }
{
    ((p.y - BIAS) * w + (p.x - BIAS)) as usize
}

// Paints the dot, which lies within the screen of w columns.
pub fn store(screen: &mut [u8], w: u32, p: Spot, c: u8)
    requires { Seen w p screen.old }
    ensures { screen.new ≡ slice_set screen.old (byte_b w p) c }
{
    let at = byte_of(w, p);
    screen[at] = c;
}
