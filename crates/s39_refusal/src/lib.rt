//! The numbers of refusals, and the details of a refusal.
#![tactic(auto)]

mod cause;
pub mod code;

pub use cause::Cause;
