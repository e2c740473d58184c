// A number, and what it means.
use errand::say::tell;
use std::fmt;
use wording::{Words, words_for};

// The number that a list is refused with, and what it means.
pub fn refuse(to: &impl Print, name: &[u8], number: u8) {
    tell(to, name, Meaning(number));
}

// NUMBER, what it means.
#[derive(Clone, Copy)]
pub struct Meaning(pub u8);

impl fmt::Display for Meaning {
    fn fmt<W: fmt::Write>(&self, f: &mut fmt::Formatter<W>) -> fmt::Result {
        let number = self.0;
        let words = Text(words_for(number));
        write!(f, "{number}, {words}")
    }
}

// The words for a number, or an opcode's name.
#[derive(Clone, Copy)]
pub(crate) struct Text(pub Words);

impl fmt::Display for Text {
    fn fmt<W: fmt::Write>(&self, f: &mut fmt::Formatter<W>) -> fmt::Result {
        let length = usize::from(self.0.length);
        for byte in self.0.text.iter().take(length) {
            f.write_char(char::from(*byte))?;
        }
        Ok(())
    }
}
