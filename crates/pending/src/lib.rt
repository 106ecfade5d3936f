// Delivering what waits, in rounds, over the words and logs of a run.
#![tactic(auto)]

pub mod deliver;
mod rounds;
