// The walk from word 0 through the end of a list, opcode after opcode: what becomes of each word.
ghost use Rattle.std.specs.Prelude.{◌≡◌, ◌≤◌};
ghost use Rattle.mender.specs.Walk.{begun, passing};

use forms::form_of;
use forms::layout::{Layout, layout_of};

// What becomes of a word, and where the walk is behind it: so many words of an opcode are still to come, and at 0 an opcode is due; or
// None, behind the first word of one that the end cuts.
#[derive(Clone, Copy)]
pub struct Passed {
    pub word: u16,
    pub left: Option<usize>,
}

// An opcode of so many words begins with this one, and `have` words are there, it among them.
fn begin(word: u16, size: usize, have: usize) -> Passed
    requires { 1 ≤ size }
    ensures { result ≡ begun word size have }
{
    if have < size {
        Passed {
            word: 0x0001,
            left: None,
        }
    } else {
        Passed {
            word,
            left: Some(size - 1),
        }
    }
}

// An opcode is due.
fn due(word: u16, have: usize) -> Passed
    ensures { result ≡ passing (Some 0) word have }
{
    match layout_of(form_of(word)) {
        Layout::Strange => Passed {
            word: 0x0000,
            left: Some(0),
        },
        Layout::Plain(n) | Layout::Flow(n) => begin(word, n as usize, have),
        Layout::Opens => begin(word, 2, have),
        Layout::Ends | Layout::Closes => begin(word, 1, have),
    }
}

// One word, with `have` words there, it among them.
pub fn pass(left: Option<usize>, word: u16, have: usize) -> Passed
    ensures { result ≡ passing left word have }
{
    match left {
        Some(0) => due(word, have),
        Some(n) => Passed {
            word,
            left: Some(n - 1),
        },
        None => Passed {
            word: 0x0000,
            left: None,
        },
    }
}
