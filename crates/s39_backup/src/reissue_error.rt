//! Why the shares at hand don't give the named share.
ghost use Rattle.std.specs.Prelude.{◌≡◌};
ghost use Rattle.s39_backup.specs.Reissue.{reissue_cause_of};

use crate::combination::Mismatch;
use s39_refusal::{Cause, code};

/// What is at hand and what is needed to determine a share.
#[derive(Clone, Copy, Debug, PartialEq, Eq)]
pub struct TooFew {
    /// The group index of the share, from 0 to 15.
    pub group: u8,
    /// The member index of the share, from 0 to 15.
    pub member: u8,
    /// How many members of the group are at hand.
    pub members: u8,
    /// The group's member threshold.
    pub threshold: u8,
    /// How many other groups have at least their member threshold of members at hand.
    pub others: u8,
    /// The group threshold.
    pub required: u8,
}

impl TooFew {
    ghost use Rattle.s39_backup.specs.Reissue.{too_few_cause};

    /// Returns the number of the refusal, 66, and its details: the name of the share as `256 * group + member`, and the
    /// four counts. Each count is a byte: the highest is `members`, and then come `threshold`, `others` and `required`.
    pub fn cause(&self) -> Cause
        ensures { result ≡ too_few_cause self.now }
    {
        let members = 256 * u64::from(self.members) + u64::from(self.threshold);
        let groups = 256 * u64::from(self.others) + u64::from(self.required);
        Cause::new(
            code::UNDETERMINED,
            256 * u64::from(self.group) + u64::from(self.member),
            65_536 * members + groups,
        )
    }
}

/// Why the shares at hand don't give the named share.
#[derive(Clone, Copy, Debug, PartialEq, Eq)]
pub enum ReissueError {
    /// The shares at hand don't determine it.
    Undetermined(TooFew),
    /// A digest doesn't match in what the share is computed from.
    DigestMismatch(Mismatch),
}

impl ReissueError {
    /// Returns the number of the refusal: 66, with the details of `TooFew::cause`; or 51, with the group or
    /// `s39_refusal::code::OF_GROUPS`.
    pub fn cause(&self) -> Cause
        ensures { result ≡ reissue_cause_of self.now }
    {
        match self {
            ReissueError::Undetermined(few) => few.cause(),
            ReissueError::DigestMismatch(mismatch) => mismatch.cause(),
        }
    }
}
