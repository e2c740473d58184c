// Text and lines, most of them for standard error. Where they can't be written, nothing is told.

use std::fmt;

// A name may be any bytes, so it is written as it is, and the words about it behind it.
pub fn say(to: &impl Print, text: &[u8]) {
    let _ = to.write_all(text);
}

pub fn usage(to: &impl Print) {
    let _ = println!(to;
        "usage: play FORM [painted] LIST WIDTH HEIGHT [LEFT TOP RIGHT BOTTOM] [BUDGET], or play FORM [painted] page PAGE WIDTH HEIGHT [BUDGET], or play check LIST, or play mend LIST, or play who LIST WIDTH HEIGHT X Y [LEFT TOP RIGHT BOTTOM] [BUDGET]; FORM is ppm, png, or cells COLUMNS ROWS BITS"
    );
}

// NAME: what is told of it.
pub fn tell(to: &impl Print, name: &[u8], what: impl fmt::Display + Drop) {
    say(to, name);
    let _ = println!(to; ": {what}");
}

// What stands where a number is due; `at` is where it stands, `name` what it should be.
pub fn no_number(to: &impl Print, at: &[u8], name: &str, item: &[u8]) {
    say(to, at);
    let _ = print!(to; ": the {name} is no number: ");
    say(to, item);
    let _ = println!(to;);
}
