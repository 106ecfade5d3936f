// One card's replica of every counter, in the caller's words: open and read.
#![tactic(auto)]

pub mod open;
pub mod read;
