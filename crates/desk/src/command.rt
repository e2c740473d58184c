// Which command a line has, and whether it has the items that the command asks.
ghost use Rattle.std.specs.Prelude.{◌≡◌, length};
ghost use Rattle.text.specs.Items.{items};
ghost use Rattle.desk.specs.Commands.{command_of, named as named_of, asked as asked_of, has as has_of};

use crate::fault::Fault;
use crate::table::beside;
use std::cmp::Ordering;
use text::items::{count, item};

#[derive(Clone, Copy, Debug, PartialEq, Eq)]
pub enum Command {
    Nothing,
    Heading,
    Fresh,
    Set,
    Bytes,
    Budget,
    List,
    Run,
    Lit,
    Check,
    Unknown,
}

const COMMANDS: [(&[u8], Command); 8] = [
    (b"fresh", Command::Fresh),
    (b"set", Command::Set),
    (b"bytes", Command::Bytes),
    (b"budget", Command::Budget),
    (b"list", Command::List),
    (b"run", Command::Run),
    (b"lit", Command::Lit),
    (b"check", Command::Check),
];

pub fn command_of(line: &[u8]) -> Command
    ensures { result ≡ command_of line.now }
{
    let Some(first) = line.first() else {
        return Command::Nothing;
    };
    match *first {
        b'#' => Command::Nothing,
        b'=' => Command::Heading,
        _ => named(item(line, 0)),
    }
}

fn named(name: &[u8]) -> Command
    ensures { result ≡ named_of name.now }
{
    beside(&COMMANDS, name).unwrap_or(Command::Unknown)
}

// Whether the line has as many items as its command asks.
pub fn well_formed(line: &[u8], command: Command) -> Result<(), Fault>
    ensures { result ≡ has_of (length (items line.now)) (asked_of command) }
{
    match asked(command) {
        Some(asked) => has(count(line), asked),
        None => Ok(()),
    }
}

// How many items the command asks; none where it asks nothing.
fn asked(command: Command) -> Option<usize>
    ensures { result ≡ asked_of command }
{
    match command {
        Command::Fresh => Some(7),
        Command::Set | Command::Lit => Some(3),
        Command::Bytes | Command::Budget => Some(2),
        Command::Run | Command::Check => Some(1),
        Command::Nothing | Command::Heading | Command::List | Command::Unknown => None,
    }
}

fn has(items: usize, asked: usize) -> Result<(), Fault>
    ensures { result ≡ has_of items (Some asked) }
{
    match items.cmp(&asked) {
        Ordering::Less => Err(Fault::Missing),
        Ordering::Equal => Ok(()),
        Ordering::Greater => Err(Fault::Extra),
    }
}
