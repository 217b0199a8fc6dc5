//! The command `drill` of the program `shamir`, over readers and writers: `run_drill`. `drill_set` does the same for a
//! set, and puts the text into a slice.
//!
//! A quorum is a set of shares that meets the thresholds, while none of its proper subsets does.
//!
//! The examples use `Counting` and `SecretForm` of `s39_input` too. In them `rt` is the runtime, or a reference to it.
#![tactic(auto)]

mod drill;
pub mod laws;
mod length_laws;
mod listing;
mod round_trips;

pub use drill::{Done, NoDrill, run_drill};
pub use listing::{Listing, drill_set};
