// Size and pane: what is asked of every screen.
ghost use Rattle.std.specs.Prelude.{◌≡◌};
ghost use Rattle.rules.specs.Door as Door;

use raster::frame::Bounds;

// 1 to 2,048.
fn side_fits(n: u32) -> bool
    ensures { result ≡ Door.between 1 2048 n }
{
    1 <= n && n <= 2048
}

pub fn size_fits(b: Bounds) -> bool
    ensures { result ≡ Door.size_fits b }
{
    side_fits(b.width) && side_fits(b.height)
}

pub fn pane_fits(b: Bounds) -> bool
    ensures { result ≡ Door.pane_fits b }
{
    let p = b.pane;
    p.left <= p.right && p.right < b.width && (p.top <= p.bottom && p.bottom < b.height)
}
