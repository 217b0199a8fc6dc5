//! Lemmas about lists, which the proofs of the crates above cite. There is no code.
#![tactic(auto)]
