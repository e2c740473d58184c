// Makes a fresh environment: 'fresh W H L T R B'.
use crate::print;
use crate::rooms::SCREEN;
use crate::screen::clear;
use desk::desk::Desk;
use desk::fault::Fault;
use desk::size::{area, read_six};
use raster::frame::Pane;
use rules::answer::Made;

pub fn fresh(out: &impl Print, line: &[u8], screen: &mut [u8; SCREEN]) -> Result<Desk, Fault> {
    let [width, height, left, top, right, bottom] = read_six(line)?;
    let bytes = area(width, height);
    clear(screen, bytes);
    let pane = Pane {
        left,
        top,
        right,
        bottom,
    };
    let made = made_of(width, height, pane);
    print::line(out, format_args!("made {}", made.number));
    Ok(Desk {
        env: made.env,
        budget: 100,
        words: 0,
        bytes,
    })
}

// What the box makes, with none of its promises: no proof here leans on them.
pub fn made_of(width: u32, height: u32, pane: Pane) -> Made {
    ovenlute::fresh(width, height, pane)
}
