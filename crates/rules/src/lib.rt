// Document 01 as types: what a call is given, what comes back, and what an opcode is.
#![tactic(auto)]

pub mod answer;
pub mod environment;
pub mod opcode;
