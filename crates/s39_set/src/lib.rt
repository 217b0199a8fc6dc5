//! Share sets: the shares of one backup that are at hand, and the quorums among them.
#![tactic(auto)]

mod counting;
mod cursor;
mod first_quorum;
pub mod laws;
mod limits;
mod looks;
mod masks;
mod next;
mod quorum;
mod set_error;
mod set_lack;
mod share_set;
mod status;
mod texts;

pub use counting::quorum_count_of;
pub use cursor::{BadCursor, BadNames, parse_names, parse_quorum};
pub use first_quorum::first;
pub use limits::{GROUPS, MAX_GROUPS, MAX_MEMBERS, MAX_NAMES, MAX_STEP_LOOKS, MAX_TEST_LOOKS};
pub use looks::{Looks, has};
pub use next::{NotAQuorum, next_after};
pub use quorum::{Quorum, is_quorum};
pub use set_error::{Added, SetError};
pub use set_lack::SetLack;
pub use share_set::{ShareSet, are_a_share_set, share_at};
pub use status::{GroupStatus, Status, group_status_of, status_of};
pub use texts::{cut_at, small_number};
