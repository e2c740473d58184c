// A walk along a line's course: from one dot's byte to the next one's, with no product, no division and no question whether
// a dot is drawable.
ghost use Rattle.std.specs.Prelude.{◌≡◌, ◌+◌, ◌*◌, ◌<◌, ◌≤◌, length, if◌then◌else◌, slice_set};
ghost use Rattle.raster.specs.Rects.{pixels};
ghost use Rattle.lines.specs.Walks.{stretch_b, stride, next_place, AllSeen, Paced, Reached};

use crate::course::{Course, FairCourse};
use crate::dashes::Pattern;
use crate::span::Span;
use raster::biased::twice_of;
use raster::rect::byte_of;

// How far aside a dot is, q, and what is left there, e, in parts of 2n.
#[derive(Clone, Copy)]
pub struct Slope {
    pub q: u32,
    pub e: u32,
}

impl FairCourse {
    // At dot k: one division, and none at the first dot.
    fn slope(self, k: u32) -> Slope
        requires { k ≤ self.course.n }
        ensures { Reached self.course k result.q result.e }
    {
        let l = self.course;
        let h = l.half();
        if k == 0 {
            return Slope { q: 0, e: h };
        }
        let t = twice_of(k, l.m) + u64::from(h);
        let d = 2 * u64::from(l.n);
        Slope {
            q: (t / d) as u32,
            e: (t % d) as u32,
        }
    }
}

// The bytes from a dot to its neighbour in the row, or else in the column.
fn stride_of(in_row: bool, w: u32) -> usize
    ensures { result ≡ stride in_row w }
{
    if in_row { 1 } else { w as usize }
}

// What a step adds to a dot's byte: straight on, or on and one aside. The latter may lead back, so it is added modulo 2^64.
#[derive(Clone, Copy)]
pub struct Pace {
    pub on: usize,
    pub aside: usize,
}

fn pace_of(w: u32, l: Course) -> Pace
    requires { w ≤ 2048 }
    ensures { Paced w l result }
{
    let on = stride_of(l.flat, w);
    let beside = stride_of(!l.flat, w);
    if l.up {
        Pace {
            on,
            aside: on + beside,
        }
    } else {
        Pace {
            on,
            aside: on.wrapping_sub(beside),
        }
    }
}

// A dot's byte, and what is left there.
#[derive(Clone, Copy)]
pub struct Place {
    pub at: usize,
    pub e: u32,
}

impl Place {
    // One step along the long axis: aside too where 2m more make 2n or more, which is where e is not below `room`.
    fn next(self, l: Course, p: Pace) -> Place
        requires { (l.m ≤ l.n) × (l.n < 131072) × (self.e < 2 * l.n) × (self.at < 4294967296) × (p.on ≤ 2048) }
        ensures { result ≡ next_place l p self.at self.e }
    {
        let room = 2 * (l.n - l.m);
        if self.e < room {
            Place {
                at: self.at + p.on,
                e: self.e + 2 * l.m,
            }
        } else {
            Place {
                at: self.at.wrapping_add(p.aside),
                e: self.e - room,
            }
        }
    }
}

// A byte gets the colour, or stays.
fn put(screen: &mut [u8], at: usize, painted: bool, c: u8)
    requires { at < length screen.old }
    ensures { screen.new ≡ (if painted then slice_set screen.old at c else screen.old) }
{
    if painted {
        screen[at] = c;
    }
}

// The dots of the span, all on the screen, of which the pattern may leave some out: all but the last in a loop.
pub fn walk<P: Pattern>(screen: &mut [u8], w: u32, l: FairCourse, s: Span, pattern: P, c: u8)
    requires all_seen { AllSeen w l.course s.from s.past screen.old }
    requires some_dot { (s.from < s.past) × (s.past ≤ l.course.n + 1) }
    ensures { screen.new ≡ pixels w (stretch_b (P.bits pattern) l.course s.from s.past) c screen.old }
{
    let last = s.past - 1;
    let slope = l.slope(s.from);
    let p = pace_of(w, l.course);
    let at = byte_of(w, l.spot(s.from, slope.q));
    let mut place = Place { at, e: slope.e };
    for k in s.from..last {
        put(screen, place.at, pattern.paints(l.course.number(k)), c);
        place = place.next(l.course, p);
    }
    put(screen, place.at, pattern.paints(l.course.number(last)), c);
}
