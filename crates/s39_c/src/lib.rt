//! The interface of the library for C, and for other languages that can call C. `include/shamir.h` declares its
//! exports.
//!
//! Each export reads and writes buffers of its caller, and returns a `ShamirAnswer`. A slice `&[u8]` or `&mut [u8]`
//! here is two parameters in C: a pointer, and a length in bytes. On refusal no slice is changed, and no struct
//! unless a slice is too short.
#![tactic(auto)]

mod answer;
mod clearing;
mod counting;
mod creating;
mod decrypting;
mod decrypting_rounds;
mod drilling;
mod encrypted;
mod expected;
mod exponent;
mod fingerprinting;
mod from_encrypted;
mod judging;
pub mod laws;
pub mod lengths;
mod memory;
mod parsing;
mod recovering;
mod reissuing;
mod repairing;
mod resplitting;
mod status;
mod telling;
mod version;
mod wiping;
mod words;

pub use answer::ShamirAnswer;
pub use counting::shamir_quorums;
pub use creating::{shamir_create, shamir_random_needed};
pub use decrypting::shamir_decrypt;
pub use decrypting_rounds::shamir_decrypt_round;
pub use drilling::shamir_drill;
pub use encrypted::{ShamirParameters, shamir_encrypted};
pub use fingerprinting::shamir_fingerprint;
pub use from_encrypted::shamir_create_from_encrypted;
pub use judging::{ShamirJudgement, shamir_judge};
pub use parsing::{ShamirShare, shamir_parse};
pub use recovering::shamir_recover;
pub use reissuing::shamir_reissue;
pub use repairing::shamir_repair;
pub use resplitting::shamir_resplit;
pub use status::shamir_status;
pub use telling::shamir_text;
pub use version::shamir_version;
pub use wiping::shamir_wipe;
pub use words::shamir_words;
