// What may be painted on: screen, pane and clip window; and the painting of a dot, of a fill and of parts of rows.
#![tactic(auto)]

pub mod frame; // screen, pane and clip window
pub mod dots; // one dot
pub mod fill; // every drawable dot
pub mod biased; // coordinates as unsigned numbers
pub mod rect; // the drawable columns and rows
pub mod part; // parts of the screen whose bytes lie side by side
