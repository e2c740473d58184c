// What can be wrong with a line.
ghost use Rattle.std.specs.Prelude.{◌≡◌};
ghost use Rattle.desk.specs.Faults.{fault_of};

use std::fmt;
use text::number::Flaw;

#[derive(Clone, Copy, Debug, PartialEq, Eq)]
pub enum Fault {
    Unknown,
    Missing,
    Extra,
    NoNumber,
    Range,
    NoField,
    NoWord,
    TooMany,
    TooLong,
    Unended,
}

impl fmt::Display for Fault {
    fn fmt<W: fmt::Write>(&self, f: &mut fmt::Formatter<W>) -> fmt::Result {
        f.write_str(match self {
            Fault::Unknown => "unknown command",
            Fault::Missing => "a word is missing",
            Fault::Extra => "a word too many",
            Fault::NoNumber => "not a decimal number",
            Fault::Range => "a number out of its range",
            Fault::NoField => "no field of that name",
            Fault::NoWord => "not a word of four hexadecimal digits",
            Fault::TooMany => "a list of more than 65537 words",
            Fault::TooLong => "a line of more than 4096 bytes",
            Fault::Unended => "no line feed at the end",
        })
    }
}

// What is wrong with a line whose number is wrong.
impl From<Flaw> for Fault {
    ghost from_gives = { λ flaw fault. fault ≡ fault_of flaw };

    fn from(flaw: Flaw) -> Fault {
        match flaw {
            Flaw::Foreign => Fault::NoNumber,
            Flaw::Large => Fault::Range,
        }
    }
}
