// Points: two values, or two offsets from a point, each coordinate judged; and circles: a point and a radius.
ghost use Rattle.std.specs.Prelude.{◌≡◌};
ghost use Rattle.numbers.specs.Number.{signed32};
ghost use Rattle.rules.specs.Opcodes as Opcodes;
ghost use Rattle.draw.specs.Point as Judged;
ghost use Rattle.draw.specs.Point.{point_of, point_by, round_of};

use circles::circle::Circle;
use numbers::coordinate::{coordinate_of, radius_of, shifted};
use raster::dots::Dot;

#[inline(always)]
fn paired(x: Option<i32>, y: Option<i32>) -> Option<Dot>
    ensures { result ≡ Judged.paired x y }
{
    Some(Dot { x: x?, y: y? })
}

// Two values as a point, judged at full width.
#[inline(always)]
pub fn point_of(a: u32, b: u32) -> Option<Dot>
    ensures { result ≡ point_of (Opcodes.point a b) }
{
    paired(coordinate_of(a), coordinate_of(b))
}

// The point at two offsets from another: the offsets are judged, and then the sums. Inlined, as a line by offsets and a move by them
// make two callers.
#[inline(always)]
pub fn point_by(from: Dot, a: u32, b: u32) -> Option<Dot>
    ensures { result ≡ point_by from (Opcodes.point a b) }
{
    let by = point_of(a, b)?;
    paired(shifted(from.x, by.x), shifted(from.y, by.y))
}

// A circle around the point (x, y).
#[inline(always)]
pub fn circle_of(x: u32, y: u32, radius: u32) -> Option<Circle>
    ensures { result ≡ round_of (Opcodes.point x y) (signed32 radius) }
{
    let centre = point_of(x, y)?;
    let radius = radius_of(radius)?;
    Some(Circle { centre, radius })
}
