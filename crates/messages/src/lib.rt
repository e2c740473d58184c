// What `play` tells of a list: its number in words, where it was stopped or is refused, what was mended, and who painted a dot.
#![tactic(auto)]

pub mod digits; // words and word indices
pub mod mended; // what was mended
pub mod place; // where a list was stopped or is refused
pub mod words; // a number, and what it means
pub mod writer; // who painted a dot
