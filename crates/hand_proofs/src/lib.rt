// No code: lemmas for proofs by hand stand in proofs/. Since the toolchain proves a function over a struct that holds a reference and one over a slice of structs,
// no other crate cites them.
#![tactic(auto)]
