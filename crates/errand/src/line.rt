// A line of a page: LIST LEFT TOP RIGHT BOTTOM.
ghost use Rattle.std.specs.Prelude.{◌≡◌, IfSome};
ghost use Rattle.errand.specs.Panes.{has_no_list, has_five_items, pane_of};

use crate::number::{is_number, number};
use crate::say::{no_number, tell};
use raster::frame::Pane;
use text::items::item;

// An empty line has no list, nor has one that begins with '#'.
pub fn has_no_list(line: &[u8]) -> bool
    ensures { result ≡ has_no_list line.now }
{
    line.is_empty() || line[0] == b'#'
}

// The pane of a line that is LIST and four numbers; it gets a line where it is not.
pub fn sound_pane(to: &impl Print, line: &[u8], at: &[u8]) -> Option<Pane>
    ensures { IfSome result (λ pane. pane ≡ pane_of line.now) }
{
    if !has_five_items(line) {
        tell(to, at, "a line is LIST LEFT TOP RIGHT BOTTOM");
        return None;
    }
    for (k, name) in (1..5).zip(["left", "top", "right", "bottom"]) {
        let number = item(line, k);
        if !is_number(number) {
            no_number(to, at, name, number);
            return None;
        }
    }
    Some(pane_of(line))
}

fn has_five_items(line: &[u8]) -> bool
    ensures { result ≡ has_five_items line.now }
{
    !item(line, 4).is_empty() && item(line, 5).is_empty()
}

pub fn pane_of(line: &[u8]) -> Pane
    ensures { result ≡ pane_of line.now }
{
    Pane {
        left: number(item(line, 1)),
        top: number(item(line, 2)),
        right: number(item(line, 3)),
        bottom: number(item(line, 4)),
    }
}
