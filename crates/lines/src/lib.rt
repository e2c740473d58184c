// Lines, also dashed ones, on a lent screen, within a frame.
#![tactic(auto)]

pub mod line; // a line's dots
pub mod course; // a line from its start along the long axis
mod span; // the dots of a course within a rectangle
mod walk; // from dot to dot
pub mod dashes; // the same, where a pattern paints some dots and others not
