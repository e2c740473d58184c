// The bytes of a row of the window.
ghost use Rattle.std.specs.Prelude.{◌≡◌, ◌+◌, ◌*◌, ◌≤◌, ◌<◌, length};
ghost use Rattle.io.specs.Counts.{IsPrefixLen};
ghost use Rattle.text.specs.Puts.{Puts};
ghost use Rattle.terminal.specs.Lines.{line as line_of};

use crate::cell::{Depth, put_cell, put_line_end};
use crate::shown::Shown;

// Row j shows the picture's lines 2 j and 2 j + 1.
pub fn put_line(shown: &Shown, j: usize, depth: Depth, room: &mut [u8]) -> usize
    requires j_bound { 2 * j + 1 < shown.now.view.lines }
    requires in_bounds { 39005 ≤ length room.old }
    ensures puts { Puts (line_of depth shown.now.screen.now shown.now.view j) room.old 0 room.new result }
    ensures prefix_len { IsPrefixLen result room.new }
{
    let mut at = 0;
    for i in 0..shown.view.columns {
        let upper = shown.dot(i, 2 * j);
        let lower = shown.dot(i, 2 * j + 1);
        at = put_cell(upper, lower, depth, room, at);
    }
    put_line_end(room, at)
}
