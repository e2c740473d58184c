// Circles: the filled one and its outline, on a lent screen, within a frame.
#![tactic(auto)]

pub mod circle; // a circle's dots, from the rows farthest from its centre to the nearest
mod reach; // how far a circle reaches in a row
mod sheet; // a rectangle of the screen, and the two rows at one distance from the centre
