// Where a list was stopped or is refused by the checker, for whoever has to mend it: the word, the opcode by its name and, with
// 23, the variables.
use crate::digits::{Index, Word};
use crate::words::{Meaning, Text};
use errand::say::tell;
use forms::form_of;
use names::{name_of, variables_of};
use numbers::place::{VarNo, WordIndex};
use rules::opcode::Form;
use std::fmt;

// Of a list that was stopped: the number, the index of the opcode, and the place. Below 20 there is none to tell.
#[derive(Clone, Copy)]
pub struct Place<'a> {
    pub list: &'a [u16],
    pub number: u8,
    pub opcode: WordIndex,
    pub place: WordIndex,
}

impl fmt::Display for Place<'_> {
    fn fmt<W: fmt::Write>(&self, f: &mut fmt::Formatter<W>) -> fmt::Result {
        let index = Index(self.place);
        let word = word(self.list, self.place);
        let opcode = Opcode {
            list: self.list,
            at: self.opcode,
        };
        match self.number {
            0..20 => Ok(()),
            20 => write!(f, ": word {index}"),
            21 => {
                let word = Word(word);
                write!(f, ": {word} at {index}")
            }
            23 => {
                let variables = Variables {
                    first: VarNo(word),
                    count: variables_of(form_at(self.list, self.opcode)),
                };
                write!(f, ": word {index} of {opcode}, {variables}")
            }
            _ => write!(f, ": {opcode}"),
        }
    }
}

// 'CLIPWINV at 0365'
#[derive(Clone, Copy)]
pub(crate) struct Opcode<'a> {
    pub list: &'a [u16],
    pub at: WordIndex,
}

impl fmt::Display for Opcode<'_> {
    fn fmt<W: fmt::Write>(&self, f: &mut fmt::Formatter<W>) -> fmt::Result {
        let name = Text(name_of(form_at(self.list, self.at)));
        let index = Index(self.at);
        write!(f, "{name} at {index}")
    }
}

// 'V61 to V64': the first of so many variables and the last.
#[derive(Clone, Copy)]
struct Variables {
    first: VarNo,
    count: u16,
}

impl fmt::Display for Variables {
    fn fmt<W: fmt::Write>(&self, f: &mut fmt::Formatter<W>) -> fmt::Result {
        let first = u32::from(self.first.0);
        let count = u32::from(self.count);
        if count < 2 {
            return write!(f, "V{first}");
        }
        let last = first + count - 1;
        write!(f, "V{first} to V{last}")
    }
}

// The line of a list that the checker refuses: the number, what it means, and the place, which 13 and 31 do not have. With 21 it
// is a word that is no opcode, or an opcode that no list has which surely finishes.
pub fn tell_fault(to: &impl Print, name: &[u8], list: &[u16], number: u8, place: WordIndex) {
    let meaning = Meaning(number);
    let opcode = Opcode { list, at: place };
    let at = Place {
        list,
        number,
        opcode: place,
        place,
    };
    match number {
        13 | 31 => tell(to, name, meaning),
        21 if is_opcode(list, place) => tell(
            to,
            name,
            format_args!("21, foreign to lists that surely finish: {opcode}"),
        ),
        _ => tell(to, name, format_args!("{meaning}{at}")),
    }
}

fn is_opcode(list: &[u16], at: WordIndex) -> bool {
    !matches!(form_at(list, at), Form::Unknown)
}

fn form_at(list: &[u16], at: WordIndex) -> Form {
    form_of(word(list, at))
}

// A place of 21 to 30 is inside the list; elsewhere there would be none to tell.
fn word(list: &[u16], at: WordIndex) -> u16 {
    list.get(at.0 as usize).copied().unwrap_or(0)
}
