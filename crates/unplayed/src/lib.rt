// What `play` does with a list that it does not play: it tells whether it surely finishes, or mends it.
#![tactic(auto)]

pub mod check; // whether a list surely finishes
pub mod mend; // mends a list
