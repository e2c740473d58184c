// A dot as a column and a row of a screen.
ghost use Rattle.std.specs.Prelude.{◌≡◌, true};
ghost use Rattle.rules.specs.Door.{size_fits};
ghost use Rattle.who.specs.Following.{PixelOf};

use contains::pixel::Pixel;
use raster::dots::Dot;
use raster::frame::Bounds;

// None outside the screen.
pub fn pixel_of(b: Bounds, d: Dot) -> Option<Pixel>
    requires { size_fits b ≡ true }
    ensures { PixelOf b d result }
{
    let column = u32::try_from(d.x).ok()?;
    let row = u32::try_from(d.y).ok()?;
    if b.width <= column || b.height <= row {
        return None;
    }
    Some(Pixel { column, row })
}
