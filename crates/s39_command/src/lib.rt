//! The words of the command line of `shamir`: which command they give, with which values, or why they give none.
#![tactic(auto)]

mod command;
mod definition;
pub mod laws;
mod values;

pub use command::{BadValues, Call, Job, NoJob, Texts, read_words};
