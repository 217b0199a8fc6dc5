//! Hash functions that keys and addresses of wallets are made with: HMAC-SHA512, RIPEMD-160, HASH160, double SHA-256, and
//! the tagged hashes of BIP-340.
#![tactic(auto)]

mod digests;
mod keyed_hash;
mod ripemd;
mod ripemd_steps;

pub use digests::{double_sha256, hash160, tagged_hash};
pub use keyed_hash::{MAC_BYTES, hmac_sha512};
pub use ripemd::ripemd160;
