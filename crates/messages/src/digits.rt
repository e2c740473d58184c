// Words and word indices, as sources have them: in hexadecimal.
ghost use Rattle.std.specs.Prelude.{Some};
ghost use Rattle.text.specs.Hexadecimal.{hex_digits};
ghost use Rattle.messages.specs.Digits.{index_digits};

use numbers::place::WordIndex;
use std::fmt;
use text::hexadecimal::digits_of;

// A word by its four digits.
#[derive(Clone, Copy)]
pub struct Word(pub u16);

impl fmt::Display for Word {
    ghost output = { λ word. Some (hex_digits word.0) };

    fn fmt<W: fmt::Write>(&self, f: &mut fmt::Formatter<W>) -> fmt::Result {
        let [a, b, c, d] = digits_of(self.0);
        let (a, b, c, d) = (char::from(a), char::from(b), char::from(c), char::from(d));
        write!(f, "{a}{b}{c}{d}")
    }
}

// A word index, 0 to 65,536.
#[derive(Clone, Copy)]
pub struct Index(pub WordIndex);

impl fmt::Display for Index {
    ghost output = { λ index. Some (index_digits index.0.0) };

    fn fmt<W: fmt::Write>(&self, f: &mut fmt::Formatter<W>) -> fmt::Result {
        let i = self.0.0;
        let word = Word((i % 65536) as u16);
        if 65535 < i {
            write!(f, "1{word}")
        } else {
            write!(f, "{word}")
        }
    }
}
