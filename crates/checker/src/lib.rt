// Document 02, T-09, a profile that surely finishes: a list is read without being played, and the steps to its EODL are stated.
#![tactic(auto)]

mod sums; // steps, kept within 32 bits
mod reading; // sequences of opcodes and blocks

ghost use Rattle.std.specs.Prelude.{◌≡◌};
ghost use Rattle.checker.specs.Checked.{answered, checked, Promise};

use crate::reading::{Closer, refused, sequence};
use numbers::place::WordIndex;
use player::refusal::{Refusal, Unfit};
use player::{Verdict, carrying_0};

// What is stated of a list: 0 and the steps to its EODL; or the number that it is refused with, 0 steps and, with 20 to 30, the index of
// the word at fault. All other numbers carry 0.
#[repr(C)]
#[derive(Clone, Copy)]
pub struct Checked {
    pub number: u8,
    pub place: WordIndex,
    pub steps: u32,
}

impl From<Result<u32, Verdict>> for Checked {
    ghost from_gives = { λ steps c. c ≡ answered steps };

    fn from(steps: Result<u32, Verdict>) -> Checked {
        match steps {
            Ok(steps) => Checked {
                number: 0,
                place: WordIndex(0),
                steps,
            },
            Err(v) => Checked {
                number: v.number,
                place: v.place,
                steps: 0,
            },
        }
    }
}

// More than 1,000,000 steps to the EODL, that one counted: here too the rules have no name.
const TOO_LONG: u8 = 31;

// The steps to the EODL and it, or why the list is refused.
fn steps_of(list: &[u16]) -> Result<u32, Verdict>
    ensures { answered result ≡ checked list.now }
{
    if list.len() > 65536 {
        return Err(carrying_0(Unfit::List.number()));
    }
    let whole = sequence(list, WordIndex(0), 8)?;
    match whole.by {
        Closer::Erpt => Err(refused(Refusal::NoneOpen, whole.place)),
        Closer::Eodl => {
            if whole.steps < 1000000 {
                Ok(whole.steps + 1)
            } else {
                Err(carrying_0(TOO_LONG))
            }
        }
    }
}

// Any list.
pub fn check(list: &[u16]) -> Checked
    ensures { Promise list.now result }
{
    Checked::from(steps_of(list))
}

// The checker, for C.
pub fn ovenlute_check(list: &[u16]) -> Checked
    ensures { Promise list.now result }
{
    check(list)
}
