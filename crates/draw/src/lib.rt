// What was taken is carried out, or refused, as in `act`. Here are the opcodes that draw, and those that say how.
#![tactic(auto)]

mod point; // two values, or two offsets, as a point
pub mod pen; // clip mode and window, colour, position
pub mod painting; // dots, lines and clearing, as a brush
