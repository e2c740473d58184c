// A circle's dots: the rows are taken in pairs, one above and one below the centre, from the farthest to the nearest, so that
// one reach serves both and the outline knows how far the rows further out reach.
ghost use Rattle.std.specs.Prelude.{◌≡◌, ◌&&◌, ◌+◌, ◌<◌, ◌≤◌, eqb};
ghost use Rattle.raster.specs.Frame.{Fitting};
ghost use Rattle.raster.specs.Paint.{paint};
ghost use Rattle.raster.specs.Biased.{bias, gap_b, NearB};
ghost use Rattle.raster.specs.Rects.{pixels, in_rect, Room};
ghost use Rattle.circles.specs.Circle.{disc, outline, circle};
ghost use Rattle.circles.specs.Reaches.{circle_of, circle_b, Reaching, farthest, nearest, cornered};
ghost use Rattle.circles.specs.Sheets.{Ready, painted};

use crate::reach::{reach_at, reach_from};
use crate::sheet::Sheet;
use raster::biased::Spot;
use raster::dots::Dot;
use raster::frame::Frame;
use raster::rect::{Rect, rect_of};

#[derive(Clone, Copy)]
pub struct Circle {
    pub centre: Dot,
    pub radius: i32,
}

// The circle around p with the radius q, biased.
#[derive(Clone, Copy)]
struct Round {
    p: Spot,
    q: u32,
    ghost near: { NearB p },
    ghost small: { q < 32768 },
}

// The distance from row y of the row of r that is farthest from it, where that is q at most.
fn farthest(r: Rect, y: u32, q: u32) -> u32
    ensures { result ≡ farthest r y q }
{
    y.saturating_sub(r.t).max(r.b.saturating_sub(y)).min(q)
}

// And of the nearest one.
fn nearest(r: Rect, y: u32) -> u32
    ensures { result ≡ nearest r y }
{
    r.t.saturating_sub(y).max(y.saturating_sub(r.b))
}

// The rows d from the centre, where the circle reaches as far as e, and as far as g one row further out.
fn rows_at<const FILLED: bool>(s: &mut Sheet, k: Round, d: u32, e: u32, g: u32)
    requires ready { Ready s.old }
    requires small { (d < 32768) × (1 ≤ e) }
    requires reaching { Reaching k.q d e × Reaching k.q (d + 1) g }
    ensures { s.new ≡ painted s.old (λ i j. eqb (gap_b k.p.y (j + bias)) d && circle_b FILLED k.p k.q i j) }
{
    let x = k.p.x;
    let h = e - 1;
    if FILLED {
        s.pair(k.p.y, d, x.saturating_sub(h), x + h);
    } else {
        let i = h.min(g);
        s.pair(k.p.y, d, x.saturating_sub(h), x.saturating_sub(i));
        s.pair(k.p.y, d, x + i, x + h);
    }
}

// The circle's dots.
fn circle_rows<const FILLED: bool>(s: &mut Sheet, k: Round)
    requires { Ready s.old }
    ensures { s.new ≡ painted s.old (circle_b FILLED k.p k.q) }
{
    let y = k.p.y;
    let far = farthest(s.r, y, k.q) + 1;
    let mut g = reach_at(k.q, far);
    for d in (nearest(s.r, y)..far).rev() {
        let e = reach_from(k.q, d, g);
        rows_at::<FILLED>(s, k, d, e, g);
        g = e;
    }
}

// The circle's dots between two corners, none where there is no column or no row: a call of its own, beside the loop of opcodes.
// Corners go in registers, as a frame would not.
#[inline(never)]
fn circle_in<const FILLED: bool>(screen: &mut [u8], w: u32, low: Spot, high: Spot, k: Round, c: u8)
    requires { Room w (cornered low high) screen.old }
    ensures { screen.new
        ≡ pixels w (λ i j. in_rect (cornered low high) i j && circle_b FILLED k.p k.q i j) c screen.old }
{
    if low.x <= high.x && low.y <= high.y {
        let r = Rect {
            l: low.x,
            t: low.y,
            r: high.x,
            b: high.y,
        };
        let mut s = Sheet { screen, w, r, c };
        circle_rows::<FILLED>(&mut s, k);
    }
}

// The drawable dots of the circle around p with the radius q: all of them, or the outline's.
fn draw<const FILLED: bool>(screen: &mut [u8], f: Frame, p: Spot, q: u32, c: u8)
    requires fitting { Fitting f screen.old }
    requires near_b { NearB p × (q < 32768) }
    ensures { screen.new ≡ paint f (circle FILLED (circle_of p q)) c screen.old }
{
    let r = rect_of(f);
    let low = Spot { x: r.l, y: r.t };
    let high = Spot { x: r.r, y: r.b };
    circle_in::<FILLED>(screen, f.bounds.width, low, high, Round { p, q }, c);
}

// The drawable dots of the filled circle around p with the radius q. Two names, as a caller that says `true` or `false` says less.
pub fn draw_disc(screen: &mut [u8], f: Frame, p: Spot, q: u32, c: u8)
    requires fitting { Fitting f screen.old }
    requires near_b { NearB p × (q < 32768) }
    ensures { screen.new ≡ paint f (disc (circle_of p q)) c screen.old }
{
    draw::<true>(screen, f, p, q, c);
}

// The drawable dots of its outline.
pub fn draw_outline(screen: &mut [u8], f: Frame, p: Spot, q: u32, c: u8)
    requires fitting { Fitting f screen.old }
    requires near_b { NearB p × (q < 32768) }
    ensures { screen.new ≡ paint f (outline (circle_of p q)) c screen.old }
{
    draw::<false>(screen, f, p, q, c);
}
