//! How many groups, members and names there may be, as the standard has them, and how many looks a call may add.

pub use s39_words::{MAX_GROUPS, MAX_MEMBERS};

/// The most names of shares, each a group and a member index.
pub const MAX_NAMES: usize = GROUPS * MAX_MEMBERS as usize;

/// The most looks (`Looks`) that `is_quorum` adds.
pub const MAX_TEST_LOOKS: u64 = 1_024;

/// The most looks that `next_after` adds, however many quorums there are.
pub const MAX_STEP_LOOKS: u64 = 16_384;

/// The most groups of a backup, as the length of a list or an array.
pub const GROUPS: usize = MAX_GROUPS as usize;
