//! Theorems about secrecy: as many lists of random bytes give mnemonics that are two short of the thresholds of a plan,
//! whichever secret of one length the backup has. Each theorem is the contract of a function in `laws`. No other
//! function is here, and no crate uses this one.
#![tactic(auto)]

pub mod laws;
