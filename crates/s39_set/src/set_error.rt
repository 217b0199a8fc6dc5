//! What comes of adding a share to a set.
ghost use Rattle.std.specs.Prelude.{◌≡◌};

use s39_refusal::{Cause, code};

/// How a share was taken into a set.
#[derive(Clone, Copy, Debug, PartialEq, Eq)]
pub enum Added {
    /// The set has one share more.
    New,
    /// The set had the share already.
    Repeat,
}

/// The first cause for which a share can't join a set. The variants stand in the order in which they are tried;
/// indices are 0 to 15.
#[derive(Clone, Copy, Debug, PartialEq, Eq)]
pub enum SetError {
    /// The set's shares have another identifier.
    OtherIdentifier,
    /// The set's shares have another extendable flag.
    OtherExtendable,
    /// The set's shares have another iteration exponent.
    OtherExponent,
    /// The set's shares have another group threshold.
    OtherGroupThreshold,
    /// The set's shares have another group count.
    OtherGroupCount,
    /// The values of the set's shares have another length.
    OtherLength,
    /// The set's shares of this group have another member threshold.
    OtherMemberThreshold { group: u8 },
    /// The set's share of this group and member index has another value.
    ConflictingShare { group: u8, member: u8 },
}

impl SetError {
    ghost use Rattle.s39_set.specs.ShareSet.{cause_of};

    /// Returns the number of the refusal, 21 to 28, and the group and the member that it names.
    pub fn cause(&self) -> Cause
        ensures { result ≡ cause_of self.now }
    {
        match self {
            SetError::OtherIdentifier => Cause::of(code::OTHER_IDENTIFIER),
            SetError::OtherExtendable => Cause::of(code::OTHER_EXTENDABLE),
            SetError::OtherExponent => Cause::of(code::OTHER_EXPONENT),
            SetError::OtherGroupThreshold => Cause::of(code::OTHER_GROUP_THRESHOLD),
            SetError::OtherGroupCount => Cause::of(code::OTHER_GROUP_COUNT),
            SetError::OtherLength => Cause::of(code::OTHER_LENGTH),
            SetError::OtherMemberThreshold { group } => {
                Cause::new(code::OTHER_MEMBER_THRESHOLD, u64::from(*group), 0)
            }
            SetError::ConflictingShare { group, member } => {
                Cause::new(
                    code::CONFLICTING_SHARE,
                    u64::from(*group),
                    u64::from(*member),
                )
            }
        }
    }
}
