// The call that takes another card's message.
#![tactic(auto)]

mod effect;
pub mod take;
