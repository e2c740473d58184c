// Signed 32-bit numbers, held as their bits in a u32; coordinates; and the three kinds of number that never stand for one another.
#![tactic(auto)]

pub mod arith;
pub mod coordinate;
pub mod place;
pub mod value;
