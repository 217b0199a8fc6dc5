//! The addresses that wallets show of a public key: Bitcoin's on the main network, and Ethereum's.
#![tactic(auto)]

mod address;
mod bitcoin;
mod ethereum;
pub mod laws;
mod taproot;

pub use address::{Address, Kind};
pub use bitcoin::{PUBLIC_KEY_BYTES, p2pkh, p2sh_p2wpkh, p2wpkh};
pub use ethereum::{ETHEREUM_ADDRESS, erc55, ethereum_address};
pub use taproot::{X_ONLY_BYTES, output_key, p2tr};
