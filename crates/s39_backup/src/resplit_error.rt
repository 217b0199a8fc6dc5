//! Why the encrypted secret of a backup isn't split anew.
ghost use Rattle.std.specs.Prelude.{◌≡◌};
ghost use Rattle.s39_backup.specs.Resplit.{resplit_cause_of};

use crate::combination::Mismatch;
use s39_refusal::{Cause, code};
use s39_set::SetLack;

/// Why the encrypted secret of a backup isn't split anew.
#[derive(Clone, Copy, Debug, PartialEq, Eq)]
pub enum ResplitError {
    /// The set has no quorum.
    Lack(SetLack),
    /// A digest of the least quorum doesn't match.
    DigestMismatch(Mismatch),
    /// The backup isn't extendable, so its passphrases fit no other identifier.
    NotExtendable,
    /// The new backup takes `needed` random bytes, and more or fewer were passed.
    BadRandomLength { needed: usize },
    /// The first two random bytes give the identifier of the old backup, so mnemonics of both would be taken for one
    /// backup. Others have to be drawn.
    SameIdentifier,
}

impl ResplitError {
    /// Returns the number of the refusal: 29; 30, with the numbers of complete and required groups; 51, with the group
    /// or `s39_refusal::code::OF_GROUPS`; 67; 43, with the number of random bytes that are needed; or 68.
    pub fn cause(&self) -> Cause
        ensures { result ≡ resplit_cause_of self.now }
    {
        match self {
            ResplitError::Lack(lack) => lack.cause(),
            ResplitError::DigestMismatch(mismatch) => mismatch.cause(),
            ResplitError::NotExtendable => Cause::of(code::NOT_EXTENDABLE),
            ResplitError::BadRandomLength { needed } => {
                Cause::new(code::RANDOM_LENGTH, *needed as u64, 0)
            }
            ResplitError::SameIdentifier => Cause::of(code::SAME_IDENTIFIER),
        }
    }
}

impl From<SetLack> for ResplitError {
    ghost use Rattle.s39_backup.specs.declared.resplit_error.ResplitError.TheVariants.{Lack};

    ghost from_gives = { λ lack error. error ≡ Lack lack };

    fn from(lack: SetLack) -> ResplitError {
        ResplitError::Lack(lack)
    }
}

impl From<Mismatch> for ResplitError {
    ghost use Rattle.s39_backup.specs.declared.resplit_error.ResplitError.TheVariants.{DigestMismatch};

    ghost from_gives = { λ mismatch error. error ≡ DigestMismatch mismatch };

    fn from(mismatch: Mismatch) -> ResplitError {
        ResplitError::DigestMismatch(mismatch)
    }
}
