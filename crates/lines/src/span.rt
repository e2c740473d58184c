// Which dots of a course are within a rectangle: those from one dot on, before another.
ghost use Rattle.std.specs.Prelude.{◌≡◌, ◌<◌};
ghost use Rattle.lines.specs.Spans.{span_of, covers_b, First, DotsWithin};

use crate::course::{FairCourse, across_of, along_of};
use raster::biased::{Spot, twice_of};
use raster::rect::Rect;

// The numbers from `from` on, before `past`: none where past is not above from. Unlike the library's range it is Copy.
#[derive(Clone, Copy)]
pub struct Span {
    pub from: u32,
    pub past: u32,
}

impl Span {
    // The numbers 0 to n are all in the span.
    fn covers(self, n: u32) -> bool
        ensures { result ≡ covers_b self n }
    {
        self.from == 0 && n < self.past
    }
}

// The steps from a, up or down, that end at lo to hi.
fn span_of(up: bool, a: u32, lo: u32, hi: u32) -> Span
    requires { (a < 131072) × (hi < 131072) }
    ensures { result ≡ span_of up a lo hi }
{
    if up {
        Span {
            from: lo.saturating_sub(a),
            past: (hi + 1).saturating_sub(a),
        }
    } else {
        Span {
            from: a.saturating_sub(hi),
            past: (a + 1).saturating_sub(lo),
        }
    }
}

impl FairCourse {
    // The first dot that is q aside, or more; where none is n + 1, which is past the last, as a span's end. One division,
    // rounded up, and none where that is dot 0 or none.
    fn first(self, q: u32) -> u32
        ensures { First self.course q result }
    {
        let l = self.course;
        if q == 0 {
            return 0;
        }
        if l.m < q {
            return l.n + 1;
        }
        let t = twice_of(l.n, q) - u64::from(l.half());
        let d = 2 * u64::from(l.m);
        ((t + (d - 1)) / d) as u32
    }
}

// The dots within r. Where that is the whole course, its length alone says how far to walk.
pub fn dots_within(r: Rect, whole: FairCourse) -> Span
    requires { (r.r < 131072) × (r.b < 131072) }
    ensures { DotsWithin r whole.course result.from result.past }
{
    let l = whole.course;
    let low = Spot { x: r.l, y: r.t };
    let high = Spot { x: r.r, y: r.b };
    let a = span_of(true, l.along, along_of(l.flat, low), along_of(l.flat, high));
    let b = span_of(
        l.up,
        l.across,
        across_of(l.flat, low),
        across_of(l.flat, high),
    );
    if a.covers(l.n) && b.covers(l.m) {
        return Span {
            from: 0,
            past: l.n + 1,
        };
    }
    Span {
        from: a.from.max(whole.first(b.from)),
        past: a.past.min(whole.first(b.past)),
    }
}
