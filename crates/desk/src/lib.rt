// What a line of a file of cases asks: its command, and what the desk is behind it. No file is read here, nothing is printed and
// the box is not called.
#![tactic(auto)]

pub mod command; // which command a line has
pub mod desk; // what is kept from line to line
pub mod fault; // what can be wrong with a line
mod field; // the fields of the environment
pub mod list; // reads a list
pub mod set; // sets a field of the environment
pub mod size; // the numbers of a fresh environment
mod table; // what stands beside a name
