// A log of messages in the other version. The crate holds definitions and claims (specs/) and no function; `converter` has the code.
#![tactic(auto)]
