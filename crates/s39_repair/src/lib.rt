//! Mnemonics that can't be read whole: the words that were lost come back, and the place of a wrong word is found.
#![tactic(auto)]

mod answer;
mod candidate;
pub mod laws;
mod mark;
mod marks;
mod open_places;
mod repair_error;
mod repaired;
mod solving;
mod wrong_word;

pub use answer::repair;
pub use repair_error::RepairError;
pub use repaired::Repaired;
