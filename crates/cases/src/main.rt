// Runs a file of cases through the box and prints every answer whole. FORMAT.md has the file's format and the answer's layout.
#![tactic(auto)]

mod answer; // prints an answer
mod checked; // checks the list
mod command; // carries a line out
mod file; // goes through the file
mod fresh; // makes a fresh environment
mod lit_dots; // counts lit dots
mod print; // prints lines
mod rooms; // what is lent for the list and the screen
mod runs; // runs the list
mod screen; // clears and prints the screen

use desk::list::WORDS;
use file::{TEXT, go_through};
use outside::arguments::arg;
use outside::file::open_read;
use print::line;
use rooms::{Rooms, SCREEN};
use std::fs::File;

fn main(rt: HostRuntime) {
    let out = rt.stdout();
    let mut path = io::buffer();
    let length = arg(&rt, 1, &mut path);
    if length == 0 {
        line(&out, "no file of cases is named");
        return;
    }
    match open_read(&rt, &path[..length]) {
        Ok(file) => all_of(&out, file),
        Err(_) => line(&out, "the file of cases cannot be opened"),
    }
}

fn all_of(out: &impl Print, file: File) {
    let mut file = file;
    let mut text = [0u8; TEXT];
    let mut words = [0u16; WORDS];
    let mut screen = [0u8; SCREEN];
    let mut rooms = Rooms {
        words: &mut words,
        screen: &mut screen,
    };
    go_through(out, &mut file, &mut text, &mut rooms);
}
