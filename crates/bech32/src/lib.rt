//! Bech32 and Bech32m, and the addresses of witness programs (BIP-173, BIP-350).
#![tactic(auto)]

mod address;
mod bit_writer;
mod checksum;
pub mod laws;
mod reading;

pub use address::{MAX_ADDRESS, segwit_address};
pub use reading::{AddressError, WitnessProgram, read_segwit_address};
