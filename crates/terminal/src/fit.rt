// The size of a screen's picture in a window of characters, two dots high each.
ghost use Rattle.std.specs.Prelude.{◌≡◌, ◌≤◌};
ghost use Rattle.terminal.specs.Views.{Side, clamped as clamped_to, even as even_of, view_of, Sound};

// A screen's size, and its picture's: both in dots.
#[derive(Clone, Copy)]
pub struct View {
    pub width: usize,
    pub height: usize,
    pub columns: usize,
    pub lines: usize,
}

// The widest window and the highest that is filled, in characters.
const MOST: usize = 1000;

// The largest picture with the proportions of the screen that the window has room for, in an even number of lines.
pub fn fit(width: u32, height: u32, columns: u32, rows: u32) -> View
    requires side { Side width }
    requires side_2 { Side height }
    ensures value { result ≡ view_of width height (clamped_to columns) (clamped_to rows) }
    ensures sound { Sound result }
{
    let width = width as usize;
    let height = height as usize;
    let columns = clamped(columns as usize);
    let lines = 2 * clamped(rows as usize);
    let full = columns * height;
    let room = lines * width;
    if full <= room {
        return View {
            width,
            height,
            columns,
            lines: even(full / width),
        };
    }
    View {
        width,
        height,
        columns: (room / height).max(1),
        lines,
    }
}

fn clamped(n: usize) -> usize
    ensures { result ≡ clamped_to n }
{
    n.clamp(1, MOST)
}

// An even number of lines.
fn even(n: usize) -> usize
    requires { n ≤ 2000 }
    ensures { result ≡ even_of n }
{
    2 * ((n + 1) / 2).max(1)
}
