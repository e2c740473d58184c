// What was taken is carried out, or refused: with 22 or 23 as it was fetched, or with one of 24 to 29 where the opcode begins.
// A refused one changes nothing here: the loop stops the environment. Here are the opcodes that draw nothing.
#![tactic(auto)]

pub mod values; // variables and the values compared
pub mod flow; // jumps, calls, returns and the end
pub mod repeats; // blocks that are repeated
