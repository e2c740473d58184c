// Goes through the file of cases line by line.
use crate::command::carry_out;
use crate::fresh::made_of;
use crate::print;
use crate::rooms::Rooms;
use desk::desk::Desk;
use desk::fault::Fault;
use outside::file::read_full;
use raster::frame::Pane;
use std::io::Read;

// The file's room: a file that fills it is too large.
pub const TEXT: usize = 1048576;

// The longest line.
const LONGEST: usize = 4096;

// Reads the file, and carries out its lines.
pub fn go_through(
    out: &impl Print,
    file: &mut impl Read,
    text: &mut [u8; TEXT],
    rooms: &mut Rooms,
) {
    match read_full(file, text) {
        0 => print::line(out, "the file of cases is empty or cannot be read"),
        TEXT => print::line(out, "the file of cases has 1048576 bytes or more"),
        bytes => each_line(out, &text[..bytes], rooms),
    }
}

// Carries out the lines, up to the first line that is wrong.
fn each_line(out: &impl Print, text: &[u8], rooms: &mut Rooms) {
    let mut desk = first_desk();
    for (k, line) in text.split_inclusive(|byte| *byte == b'\n').enumerate() {
        match one_line(out, line, desk, rooms) {
            Ok(after) => desk = after,
            Err(fault) => {
                print::line(out, format_args!("line {}: {fault}", k + 1));
                return;
            }
        }
    }
}

// What stands before the first line: an environment of zeros, and no screen.
fn first_desk() -> Desk {
    let pane = Pane {
        left: 0,
        top: 0,
        right: 0,
        bottom: 0,
    };
    let made = made_of(0, 0, pane);
    Desk {
        env: made.env,
        budget: 100,
        words: 0,
        bytes: 0,
    }
}

// A line with the line feed at its end.
fn one_line(out: &impl Print, line: &[u8], desk: Desk, rooms: &mut Rooms) -> Result<Desk, Fault> {
    let line = line.strip_suffix(b"\n").ok_or(Fault::Unended)?;
    if LONGEST < line.len() {
        return Err(Fault::TooLong);
    }
    carry_out(out, line, desk, rooms)
}
