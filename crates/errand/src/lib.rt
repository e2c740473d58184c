// What `play` is asked: its arguments, the lines of a page, the names and words of lists; and the lines that say what is wrong.
#![tactic(auto)]

pub mod arguments; // what the arguments ask for
pub mod file; // reads a file, and the words of a list
pub mod line; // a line of a page
mod number; // a number as arguments and pages give it
pub mod path; // where a list is looked for, and what a message names
pub mod say; // lines on standard error
