// A line's course: from its end with the smaller coordinate on the long axis, along that axis and aside.
ghost use Rattle.std.specs.Prelude.{◌≡◌, ◌≤◌};
ghost use Rattle.raster.specs.Biased.{NearB};
ghost use Rattle.lines.specs.Courses.{along_b, across_b, course_of, half, number_b, spot_at, Fair};

use raster::biased::{Spot, aside_of};

// flat says that x is the long axis, and ahead that the start is the first point given. along and across are the start's
// coordinates on the long axis and on the other, up says that the end's on the other is not smaller, and n and m are the
// larger and the smaller difference.
#[derive(Clone, Copy)]
pub struct Course {
    pub flat: bool,
    pub ahead: bool,
    pub along: u32,
    pub across: u32,
    pub up: bool,
    pub n: u32,
    pub m: u32,
}

impl Course {
    // What is left at the start, in parts of 2n: the half that rounds, and one less where the other axis falls.
    pub fn half(self) -> u32
        ensures { result ≡ half self.up self.n }
    {
        if self.up {
            self.n
        } else {
            self.n.saturating_sub(1)
        }
    }

    // Dot k's number, counted from the first point given.
    pub fn number(self, k: u32) -> u32
        requires { k ≤ self.n }
        ensures { result ≡ number_b self k }
    {
        if self.ahead { k } else { self.n - k }
    }
}

pub fn along_of(flat: bool, p: Spot) -> u32
    ensures { result ≡ along_b flat p }
{
    if flat { p.x } else { p.y }
}

pub fn across_of(flat: bool, p: Spot) -> u32
    ensures { result ≡ across_b flat p }
{
    if flat { p.y } else { p.x }
}

// The course of the line between p and q: x is the long axis when the differences are equal, and the start is the end with
// the smaller coordinate on it.
pub fn course_of(p: Spot, q: Spot) -> Course
    ensures { result ≡ course_of p q }
{
    let dx = p.x.abs_diff(q.x);
    let dy = p.y.abs_diff(q.y);
    let flat = dy <= dx;
    let ahead = along_of(flat, p) <= along_of(flat, q);
    let (start, end) = if ahead { (p, q) } else { (q, p) };
    let across = across_of(flat, start);
    Course {
        flat,
        ahead,
        along: along_of(flat, start),
        across,
        up: across <= across_of(flat, end),
        n: dx.max(dy),
        m: dx.min(dy),
    }
}

// A course none of whose dots leaves the biased numbers. `course_of` takes any points, so that a course alone may not be one.
#[derive(Clone, Copy)]
pub struct FairCourse {
    pub course: Course,
    pub ghost fair: { Fair course },
}

impl FairCourse {
    // That of the line between two points that are coordinates.
    pub fn between(p: Spot, q: Spot) -> FairCourse
        requires { NearB p × NearB q }
        ensures { result.course ≡ course_of p q }
    {
        FairCourse {
            course: course_of(p, q),
        }
    }

    // The dot k along the long axis and q aside.
    pub fn spot(self, k: u32, q: u32) -> Spot
        requires { (k ≤ self.course.n) × (q ≤ self.course.m) }
        ensures { result ≡ spot_at self.course k q }
    {
        let l = self.course;
        let a = l.along + k;
        let b = aside_of(l.up, l.across, q);
        if l.flat {
            Spot { x: a, y: b }
        } else {
            Spot { x: b, y: a }
        }
    }
}
