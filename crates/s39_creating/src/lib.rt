//! The commands of the program `shamir` that write mnemonics, over readers and writers: `run_create`,
//! `run_reissue` and `run_resplit`. `create_lines`, `reissue_lines` and `resplit_lines` do the same for bytes and lines in
//! memory, and `lines_from_encrypted` for an encrypted secret.
//!
//! The examples use `Counting` of `s39_input`, `Options` and `Plan` of `s39_backup`, `Params` of `s39_kdf`, and `parse_names` of
//! `s39_set` too. In them `rt` is the runtime, or a reference to it.
#![tactic(auto)]

mod creating;
pub mod laws;
mod length_laws;
mod reissue_laws;
mod reissuing;
mod resplit_laws;
mod resplitting;
mod round_trips;

pub use creating::{create_lines, run_create};
pub use reissuing::{reissue_lines, run_reissue};
pub use resplitting::{lines_from_encrypted, resplit_lines, run_resplit};
