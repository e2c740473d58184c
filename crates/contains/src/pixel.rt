// A column and a row of a screen, of which no side is longer than 65,536.
ghost use Rattle.std.specs.Prelude.{◌≡◌, ◌+◌, ◌<◌};
ghost use Rattle.raster.specs.Biased.{bias};

use raster::biased::{BIAS, Spot};

#[derive(Clone, Copy)]
pub struct Pixel {
    pub column: u32,
    pub row: u32,
    pub ghost small: { (column < 65536) × (row < 65536) },
}

impl Pixel {
    // Its coordinates, biased.
    pub(crate) fn spot(self) -> Spot
        ensures { (result.x ≡ self.column + bias) × (result.y ≡ self.row + bias) }
    {
        Spot {
            x: self.column + BIAS,
            y: self.row + BIAS,
        }
    }
}
