//! Private keys of BIP-32: master keys, their children, paths, fingerprints, and the 78 bytes of an extended key.
#![tactic(auto)]

mod extended_key;
pub mod laws;
mod node;
mod parent;

pub use extended_key::{ExtendedKey, HARDENED};
pub use node::{Node, SERIALIZED_BYTES};
pub use parent::Parent;
