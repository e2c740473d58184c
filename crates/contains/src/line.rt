// Whether a line contains a dot: its course has one dot that may be it, told by a comparison of products.
ghost use Rattle.std.specs.Prelude.{◌≡◌, cond, ◌-◌, ◌<◌, ◌≤◌, eqb, pos};
ghost use Rattle.raster.specs.Biased.{NearB, aside};
ghost use Rattle.lines.specs.Line.{line};
ghost use Rattle.lines.specs.Dashes.{dashed};
ghost use Rattle.lines.specs.Courses.{line_of, offset_of, dashed_b};

use crate::pixel::Pixel;
use lines::course::{FairCourse, across_of, along_of};
use lines::dashes::lit;
use lines::line::SOLID;
use raster::biased::{Spot, aside_of, twice_of};

// How far b is from a, up or down; 0 where it is on the other side.
fn steps_to(up: bool, a: u32, b: u32) -> u32
    ensures { result ≡ cond up (b - a) (a - b) }
{
    if up {
        b.saturating_sub(a)
    } else {
        a.saturating_sub(b)
    }
}

// Dot k is q aside: no division.
fn at_offset(fair: FairCourse, k: u32, q: u32) -> bool
    requires { (k ≤ fair.course.n) × (q < 131072) }
    ensures { result ≡ eqb q (offset_of fair.course k) }
{
    let l = fair.course;
    if k == 0 {
        return q == 0;
    }
    let t = twice_of(k, l.m) + u64::from(l.half());
    let low = twice_of(l.n, q);
    t >= low && t - low < 2 * u64::from(l.n)
}

// Dot k's coordinate on the other axis is b.
fn at_step(fair: FairCourse, k: u32, b: u32) -> bool
    requires { (k ≤ fair.course.n) × (b < 131072) }
    ensures { result ≡ eqb b (aside fair.course.up fair.course.across (offset_of fair.course k)) }
{
    let l = fair.course;
    let q = steps_to(l.up, l.across, b);
    b == aside_of(l.up, l.across, q) && at_offset(fair, k, q)
}

// The pixel is a dot of the course that the pattern paints.
fn on_course(fair: FairCourse, pattern: u32, d: Pixel) -> bool
    ensures { result ≡ dashed_b pattern fair.course d.column d.row }
{
    let l = fair.course;
    let p = d.spot();
    let a = along_of(l.flat, p);
    if a < l.along {
        return false;
    }
    let k = a - l.along;
    if l.n < k {
        return false;
    }
    at_step(fair, k, across_of(l.flat, p)) && lit(pattern, l.number(k))
}

pub fn on_dashed(p: Spot, q: Spot, pattern: u32, d: Pixel) -> bool
    requires { NearB p × NearB q }
    ensures { result ≡ dashed pattern (line_of p q) (pos d.column) (pos d.row) }
{
    on_course(FairCourse::between(p, q), pattern, d)
}

pub fn on_line(p: Spot, q: Spot, d: Pixel) -> bool
    requires { NearB p × NearB q }
    ensures { result ≡ line (line_of p q) (pos d.column) (pos d.row) }
{
    on_dashed(p, q, SOLID, d)
}
