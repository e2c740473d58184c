// The six numbers of a 'fresh' line, and the bytes of its screen.
ghost use Rattle.std.specs.Prelude.{◌≡◌, ◌≤◌};
ghost use Rattle.desk.specs.Sizes.{six_of, area as area_of};

use crate::fault::Fault;
use text::items::item;
use text::number::unsigned;

// The six numbers behind the line's first item.
pub fn read_six(line: &[u8]) -> Result<[u32; 6], Fault>
    ensures { result ≡ six_of line.now }
{
    let mut numbers = [0u32; 6];
    for (k, number) in numbers.iter_mut().enumerate() {
        *number = unsigned(item(line, k + 1))?;
    }
    Ok(numbers)
}

// The bytes of a screen whose size is allowed, and 0 for any other: a count and no refusal, since that screen is made too, of no bytes.
pub fn area(width: u32, height: u32) -> usize
    ensures value { result ≡ area_of width height }
    ensures upper_bound { result ≤ 4194304 }
{
    if 2048 < width || 2048 < height {
        return 0;
    }
    (width * height) as usize
}
