// Text: the items of a line, the numbers that items spell and how they are written, words in hexadecimal, and texts put together.
#![tactic(auto)]

pub mod decimal; // decimal numbers, written
pub mod hexadecimal; // words of four hexadecimal digits
pub mod items; // the items of a line
pub mod join; // texts put together
pub mod number; // decimal numbers, read
