// A call: the door, and then one opcode after the other while the budget lasts.
#![tactic(auto)]

pub mod bounds; // size and pane
pub mod door; // 10 to 14
pub mod ink; // in which colour an opcode paints
mod turns; // as many as the budget allows
pub mod run; // the whole call
