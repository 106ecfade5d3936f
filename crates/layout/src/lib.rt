// A replica in the caller's words: where each word stands, and whether a row is well-formed.
#![tactic(auto)]

pub mod words;
