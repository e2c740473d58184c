// Who painted a dot, on standard output; or on standard error that it is outside the screen.
use crate::place::Opcode;
use crate::words::refuse;
use errand::say::tell;
use numbers::place::WordIndex;
use std::fmt;

// 'step 12, LINE at 035A, colour 7': the step of a list's run, the index of its opcode and its colour.
#[derive(Clone, Copy)]
pub struct Painter<'a> {
    pub list: &'a [u16],
    pub step: u32,
    pub opcode: WordIndex,
    pub colour: u8,
}

impl fmt::Display for Painter<'_> {
    fn fmt<W: fmt::Write>(&self, f: &mut fmt::Formatter<W>) -> fmt::Result {
        let step = self.step;
        let colour = self.colour;
        let opcode = Opcode {
            list: self.list,
            at: self.opcode,
        };
        write!(f, "step {step}, {opcode}, colour {colour}")
    }
}

// NAME: (X, Y): the painter, or that no step painted it
pub fn tell_painter(to: &impl Print, name: &[u8], x: u32, y: u32, painter: Option<Painter<'_>>) {
    match painter {
        Some(painter) => tell(to, name, format_args!("({x}, {y}): {painter}")),
        None => tell(to, name, format_args!("({x}, {y}): no step painted it")),
    }
}

// The number that the question is refused with: with 25 it is the dot that is meant.
pub fn refuse_dot(to: &impl Print, number: u8) {
    match number {
        25 => tell(to, b"play", "25, the dot is outside the screen"),
        _ => refuse(to, b"play", number),
    }
}
