//! Base58Check: bytes, and four bytes of their digest, as a number in base 58.
#![tactic(auto)]

mod conversion;
pub mod laws;
mod letters;
mod reading;
mod writing;

pub use reading::{Base58Error, read_base58check};
pub use writing::{MAX_PAYLOAD, MAX_TEXT, base58check};
