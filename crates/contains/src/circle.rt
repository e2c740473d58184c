// Whether a circle, filled or its outline alone, contains a dot: by the squares of the distances from its centre.
ghost use Rattle.std.specs.Prelude.{◌≡◌, false, ◌<◌, ◌≤◌, pos};
ghost use Rattle.raster.specs.Biased.{NearB};
ghost use Rattle.circles.specs.Circle.{disc, outline};
ghost use Rattle.circles.specs.Reaches.{circle_of, circle_at, reach};

use crate::pixel::Pixel;
use raster::biased::Spot;

// A point a columns and b rows from the centre is within the radius.
#[inline(always)]
fn reaches(q: u32, a: u32, b: u32) -> bool
    requires { (q < 32768) × (a ≤ 131072) × (b ≤ 131072) }
    ensures { result ≡ reach q a b }
{
    let x = u64::from(a);
    let y = u64::from(b);
    let r = u64::from(q);
    x * x + y * y <= r * r
}

// It is a dot of the outline: within the radius, and one further out is not.
#[inline(always)]
fn at_edge(q: u32, a: u32, b: u32) -> bool
    requires { (q < 32768) × (a < 131072) × (b < 131072) }
    ensures { result ≡ circle_at false q a b }
{
    reaches(q, a, b) && (!reaches(q, a + 1, b) || !reaches(q, a, b + 1))
}

#[inline(always)]
pub fn on_disc(p: Spot, q: u32, d: Pixel) -> bool
    requires { NearB p × (q < 32768) }
    ensures { result ≡ disc (circle_of p q) (pos d.column) (pos d.row) }
{
    let s = d.spot();
    reaches(q, p.x.abs_diff(s.x), p.y.abs_diff(s.y))
}

#[inline(always)]
pub fn on_outline(p: Spot, q: u32, d: Pixel) -> bool
    requires { NearB p × (q < 32768) }
    ensures { result ≡ outline (circle_of p q) (pos d.column) (pos d.row) }
{
    let s = d.spot();
    at_edge(q, p.x.abs_diff(s.x), p.y.abs_diff(s.y))
}
