// Coordinates: whole numbers from -32,768 to 32,767, judged at full width; and radii, from 0 to 32,767.
ghost use Rattle.std.specs.Prelude.{◌≡◌, ◌+ℤ◌};
ghost use Rattle.numbers.specs.Number.{signed32};
ghost use Rattle.numbers.specs.Coordinate.{in_word, coordinate, radius};

use crate::value::to_signed;

// An i64 holds every sum of two values.
#[inline(always)]
fn judge(z: i64) -> Option<i32>
    ensures { result ≡ coordinate z }
{
    if (-32768..=32767).contains(&z) {
        Some(z as i32)
    } else {
        None
    }
}

#[inline(always)]
pub fn coordinate_of(v: u32) -> Option<i32>
    ensures { result ≡ coordinate (signed32 v) }
{
    judge(i64::from(to_signed(v)))
}

// Not by `judge`: a radius is no sum and has a range of its own, so that a function for both would be no plainer.
#[inline(always)]
pub fn radius_of(v: u32) -> Option<i32>
    ensures { result ≡ radius (signed32 v) }
{
    let z = to_signed(v);
    if (0..=32767).contains(&z) {
        Some(z)
    } else {
        None
    }
}

// A coordinate shifted by an offset.
#[inline(always)]
pub fn shifted(at: i32, by: i32) -> Option<i32>
    ensures { result ≡ coordinate (at +ℤ by) }
{
    judge(i64::from(at) + i64::from(by))
}

// Whether a value held as a coordinate is one.
pub fn in_word(z: i32) -> bool
    ensures { result ≡ in_word z }
{
    judge(i64::from(z)).is_some()
}
