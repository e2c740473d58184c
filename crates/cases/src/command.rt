// Carries out one line of the file.
use crate::checked::check;
use crate::fresh::fresh;
use crate::lit_dots::lit;
use crate::print;
use crate::rooms::{Rooms, SCREEN};
use crate::runs::run;
use crate::screen::clear;
use desk::command::{Command, command_of, well_formed};
use desk::desk::Desk;
use desk::fault::Fault;
use desk::list::{WORDS, read_list};
use desk::set::set_field;
use text::items::item;
use text::number::unsigned;

// What is kept behind the line; a line that is wrong leaves the desk as it was.
pub fn carry_out(
    out: &impl Print,
    line: &[u8],
    desk: Desk,
    rooms: &mut Rooms,
) -> Result<Desk, Fault> {
    let command = command_of(line);
    well_formed(line, command)?;
    match command {
        Command::Nothing => Ok(desk),
        Command::Heading => {
            print::bytes(out, line);
            Ok(desk)
        }
        Command::Fresh => fresh(out, line, rooms.screen),
        Command::Set => set_field(desk, item(line, 1), item(line, 2)),
        Command::Bytes => bytes(line, desk, rooms.screen),
        Command::Budget => budget(line, desk),
        Command::List => list(line, desk, rooms.words),
        Command::Run => Ok(run_list(out, desk, rooms.words, rooms.screen)),
        Command::Lit => {
            lit(out, line)?;
            Ok(desk)
        }
        Command::Check => {
            check_list(out, desk, rooms.words);
            Ok(desk)
        }
        Command::Unknown => Err(Fault::Unknown),
    }
}

fn bytes(line: &[u8], desk: Desk, screen: &mut [u8; SCREEN]) -> Result<Desk, Fault> {
    let bytes = unsigned(item(line, 1))? as usize;
    if SCREEN < bytes {
        return Err(Fault::Range);
    }
    clear(screen, bytes);
    let mut after = desk;
    after.bytes = bytes;
    Ok(after)
}

fn budget(line: &[u8], desk: Desk) -> Result<Desk, Fault> {
    let mut after = desk;
    after.budget = unsigned(item(line, 1))?;
    Ok(after)
}

fn list(line: &[u8], desk: Desk, words: &mut [u16; WORDS]) -> Result<Desk, Fault> {
    let mut after = desk;
    after.words = read_list(line, words)?;
    Ok(after)
}

// The list and the bytes that are lent, of their rooms.
fn run_list(out: &impl Print, desk: Desk, words: &[u16; WORDS], screen: &mut [u8; SCREEN]) -> Desk {
    run(out, desk, &words[..desk.words], &mut screen[..desk.bytes])
}

fn check_list(out: &impl Print, desk: Desk, words: &[u16; WORDS]) {
    check(out, &words[..desk.words]);
}
