// A screen in a terminal: two dots a character, the upper one as its colour and the lower one as its ground.
#![tactic(auto)]

pub mod cell; // the bytes of a character
pub mod fit; // the size of the picture
mod light; // the mean light of dots
pub mod line; // the bytes of a row
pub mod shown; // a screen and its picture's size
mod span; // the dots that a dot of the picture shows
