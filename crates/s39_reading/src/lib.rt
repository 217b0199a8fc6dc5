//! The commands `recover` and `status` of the program `shamir`, over readers and writers: `run_recover` and
//! `run_status`. `status_lines` does the same for lines in memory, and `recover_set` and `set_status` for a set.
//! `exponent_of` gives the iteration exponent of a set. `encrypted_in` gives the encrypted secret of lines, and
//! `decrypt_secret` decrypts it.
//!
//! The examples use `Counting` and `SecretForm` of `s39_input` too. In them `rt` is the runtime, or a reference to it.
#![tactic(auto)]

mod encrypted;
mod exponent;
pub mod laws;
mod length_laws;
mod recover;
mod round_trips;
mod rounds;
mod status;

pub use encrypted::{EncryptedSecret, decrypt_secret, encrypted_in};
pub use exponent::exponent_of;
pub use recover::{recover_set, run_recover};
pub use rounds::decrypt_round;
pub use status::{WrittenStatus, run_status, set_status, status_lines};
