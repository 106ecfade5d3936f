// What a card of version 1 does, its messages beside the converted ones, and old and new cards in one chassis. The crate holds definitions and
// claims (specs/) and no function: the rules are kept to be compared with.
#![tactic(auto)]
