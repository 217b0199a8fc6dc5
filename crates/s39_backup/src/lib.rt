//! Backups by SLIP-0039: this crate parses plans (`Plan`), creates backups (`create`), combines the shares of a quorum
//! (`combine_quorum`), recovers its secret (`recover_by`, `recover_quorum`), and computes missing shares from others
//! (`reissue`). `resplit` splits the encrypted secret of an extendable backup by another plan, and `create_from_encrypted`
//! one that the caller has. `refit` computes random bytes by which a backup of another secret has the same shares.
//!
//! A quorum is a set of shares that meets the thresholds, while none of its proper subsets does.
//!
//! The crate reads no device and no lines of text, and it allocates no memory.
//!
//! The examples also use `parse` and `print` of `s39_words`, `ShareSet`, `first` and `parse_quorum` of `s39_set`, and
//! `Bytes`, `Params` and `check_secret` of `s39_kdf`. In them `rt` is the runtime, or a reference to it.
#![tactic(auto)]

mod at_hand;
mod combination;
mod create_error;
mod created;
mod creation;
pub mod laws;
mod memo;
mod missing_share;
mod options;
mod outcome;
mod plan;
mod plan_error;
mod plan_text;
mod refitting;
mod reissue_error;
mod resplit_error;
pub mod resplit_laws;
mod resplitting;
mod two_short;

pub use at_hand::is_of_plan;
pub use combination::{Mismatch, combine_quorum, params_of};
pub use create_error::CreateError;
pub use created::Created;
pub use creation::create;
pub use memo::Memo;
pub use missing_share::reissue;
pub use options::Options;
pub use outcome::{RecoverError, recover_by, recover_quorum};
pub use plan::{Members, Plan};
pub use plan_error::PlanError;
pub use refitting::refit;
pub use reissue_error::{ReissueError, TooFew};
pub use resplit_error::ResplitError;
pub use resplitting::{create_from_encrypted, resplit};
