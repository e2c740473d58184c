// Coordinates biased by 65,536, so that they are unsigned, and arithmetic with them. Nothing else computes with signed
// numbers.
ghost use Rattle.std.specs.Prelude.{◌≡◌, ◌*◌, ◌<◌, ◌≤◌, false};
ghost use Rattle.raster.specs.Frame.{Word, Coord};
ghost use Rattle.raster.specs.Biased.{biased, spot_of, shifted_b, WordB, aside};

use crate::dots::Dot;

// What is added to a coordinate.
pub const BIAS: u32 = 65536;

// A dot, biased.
#[derive(Clone, Copy, PartialEq, Eq)]
pub struct Spot {
    pub x: u32,
    pub y: u32,
}

pub fn biased(z: i32) -> u32
    requires { Coord z }
    ensures { result ≡ biased z }
{
    (z + BIAS as i32) as u32
}

// No `From`, which would take a dot that is no coordinate too.
pub fn spot_of(d: Dot) -> Spot
    requires { Coord d.x × Coord d.y }
    ensures { result ≡ spot_of d }
{
    let x = biased(d.x);
    let y = biased(d.y);
    Spot { x, y }
}

// A dot moved by o.
pub fn shift(p: Spot, o: Dot) -> Spot
    requires { WordB p × Word o.x × Word o.y }
    ensures { result ≡ shifted_b p o }
{
    let by = spot_of(o);
    let x = p.x + by.x - BIAS;
    let y = p.y + by.y - BIAS;
    Spot { x, y }
}

// q up from b, or down.
pub fn aside_of(up: bool, b: u32, q: u32) -> u32
    requires { (b < 131072) × (q < 131072) × (up ≡ false → q ≤ b) }
    ensures { result ≡ aside up b q }
{
    if up { b + q } else { b - q }
}

// 2ab, which 32 bits do not hold.
pub fn twice_of(a: u32, b: u32) -> u64
    requires { (a < 131072) × (b < 131072) }
    ensures { (result ≡ 2 * a * b) × (result < 34359738368) }
{
    2 * u64::from(a) * u64::from(b)
}
