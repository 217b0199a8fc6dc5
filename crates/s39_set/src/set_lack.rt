//! Why a set has no quorum.
ghost use Rattle.std.specs.Prelude.{◌≡◌};

use s39_refusal::{Cause, code};

/// Why a set has no quorum.
#[derive(Clone, Copy, Debug, PartialEq, Eq)]
pub enum SetLack {
    /// The set has no share.
    NoShares,
    /// The set has shares, but only `complete` groups, 0 to 15, have at least their member threshold of them; the
    /// group threshold is `required`, 1 to 16.
    Incomplete { complete: u8, required: u8 },
}

impl SetLack {
    ghost use Rattle.s39_set.specs.Lack.{cause_of};

    /// Returns the number of the refusal: 29, or 30 with the numbers of complete and required groups.
    pub fn cause(&self) -> Cause
        ensures { result ≡ cause_of self.now }
    {
        match self {
            SetLack::NoShares => Cause::of(code::NO_SHARES),
            SetLack::Incomplete { complete, required } => {
                Cause::new(code::INCOMPLETE, u64::from(*complete), u64::from(*required))
            }
        }
    }
}
