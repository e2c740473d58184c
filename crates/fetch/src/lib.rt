// Fetching, the first stage of a step: what stands behind an opcode word becomes its operands, or a refusal.
#![tactic(auto)]

pub mod read; // the words and variables behind an opcode word
pub mod source; // operands by where they come from: 22 and 23, lowest first
