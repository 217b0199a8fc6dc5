//! Accounts of a wallet, and what it shows of them: extended public keys and addresses.
#![tactic(auto)]

mod derivation;
pub mod laws;
mod shown;

pub use derivation::{Chain, NoKey, account, address, chain_key, master_text, public_text};
pub use shown::{ExtendedPublicKey, Shown, ShownError, read_shown};
