// Lines and parts of lines on standard output. That they can't be written changes nothing of what is run.
use std::fmt::Display;

pub fn part<D: Display + Drop>(out: &impl Print, value: D) {
    let _ = out.print(value);
}

pub fn line<D: Display + Drop>(out: &impl Print, value: D) {
    let _ = out.println(value);
}

// A line that need not be text.
pub fn bytes(out: &impl Print, s: &[u8]) {
    let _ = out.write_all(s);
    line(out, "");
}
