// The program's arguments and files, over the standard library: bytes go into lent rooms, and nothing is allocated.
#![tactic(auto)]

pub mod arguments; // the program's arguments
pub mod fail; // the system's words for an error
pub mod file; // opens and reads a file
