// The listing of a run: what every card reads of every counter, as RFC 4180 text.
#![tactic(auto)]

mod lines;
pub mod list;
