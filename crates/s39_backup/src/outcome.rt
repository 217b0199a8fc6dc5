//! What a quorum recovers with a passphrase (SLIP-0039, "Encryption of the master secret").
ghost use Rattle.std.specs.Prelude.{◌≡◌, ◌≢◌, ◌↔◌, All, Ok, Err, IfOk, IfErr, IsOkAnd, ℕ, List};
ghost use Rattle.arrayvec.specs.ArrayVec.{array_vec_len};
ghost use Rattle.s39_set.specs.ShareSet.{IsShareSet};
ghost use Rattle.s39_set.specs.Quorums.{IsQuorum};
ghost use Rattle.s39_backup.specs.declared.combination.Mismatch.{Mismatch};
ghost use Rattle.s39_backup.specs.Outcome.{IsOutcome};
ghost use Rattle.s39_backup.specs.Created.{AreOfBackup};

use crate::combination::{Mismatch, combine_quorum, params_of};
use crate::laws::{every_quorum_recovers, one_outcome};
use s39_kdf::{Bytes, decrypt};
use s39_refusal::Cause;
use s39_set::{Looks, NotAQuorum, Quorum, ShareSet, are_a_share_set, is_quorum};

/// Why a quorum gives no secret.
#[derive(Clone, Copy, Debug, PartialEq, Eq)]
pub enum RecoverError {
    /// The names are no quorum of the set.
    NotAQuorum,
    /// The digest of the quorum's shares, or of its group shares, doesn't match what they combine to.
    DigestMismatch(Mismatch),
}

impl RecoverError {
    ghost use Rattle.s39_backup.specs.RecoverError.{cause_of};

    /// Returns the number of the refusal: 62; or 51, with the group or `s39_refusal::code::OF_GROUPS`.
    pub fn cause(&self) -> Cause
        ensures { result ≡ cause_of self.now }
    {
        match self {
            RecoverError::NotAQuorum => NotAQuorum.cause(),
            RecoverError::DigestMismatch(mismatch) => mismatch.cause(),
        }
    }
}

/// Recovers the master secret from a quorum of a set with a passphrase (SLIP-0039, "Shamir's secret sharing" and
/// "Encryption of the master secret"). The secret is as long as the values of the set's shares.
///
/// The first error that applies is returned:
///
/// - `NotAQuorum` if the names aren't a quorum of the set;
/// - `DigestMismatch` if the shares don't combine, with the error of `combine_quorum`.
///
/// A wrong passphrase isn't detected: as a rule it gives another secret, and no error. The function accepts any bytes
/// as a passphrase.
///
/// ```rust
/// let mut set = ShareSet::new();
/// set.add(parse(
///     b"duckling enlarge academic academic agency result length solution fridge kidney coal \
///     piece deal husband erode duke ajar critical decision keyboard",
/// )?)?;
/// let quorum = parse_quorum(b"0.0")?;
/// let secret = recover_by(&set, &quorum, b"TREZOR")?;
/// assert!(rt; secret.starts_with(b"\xbb\x54\xaa\xc4\xb8\x9d\xc8\x68"));
/// let other = recover_by(&set, &parse_quorum(b"0.1")?, b"TREZOR");
/// assert_eq!(rt; other.err(), Some(RecoverError::NotAQuorum));
/// ```
pub fn recover_by(set: &ShareSet, quorum: &Quorum, passphrase: &[u8]) -> Result<Bytes, RecoverError>
    ensures is_set { IsShareSet set.now }
    ensures quorum { (result ≢ Err RecoverError.NotAQuorum) ↔ IsQuorum set.now quorum.now }
    ensures not_a_quorum { ¬ IsQuorum set.now quorum.now → result ≡ Err RecoverError.NotAQuorum }
    ensures secret { IfOk result (λ secret.
        IsOutcome set.now quorum.now passphrase.now (Ok secret.items)) }
    ensures mismatch { (mismatch : Mismatch) → result ≡ Err (RecoverError.DigestMismatch mismatch)
        → IsOutcome set.now quorum.now passphrase.now (Err mismatch) }
    ensures length { IfOk result (λ secret.
        All (λ share. array_vec_len share.value ≡ array_vec_len secret) set.now) }
    // Every quorum of shares of a created backup gives its secret, with the passphrase of the creation.
    ensures created { (secret : List ℕ) → AreOfBackup set.now passphrase.now secret
        → IsQuorum set.now quorum.now
        → IsOkAnd result (λ recovered. recovered.items ≡ secret) }
{
    are_a_share_set(set);
    if !is_quorum(set, quorum, &mut Looks::new()) {
        return Err(RecoverError::NotAQuorum);
    }
    recover_quorum(set, quorum, passphrase).map_err(RecoverError::DigestMismatch)
}

/// Recovers the master secret from a quorum of a set with a passphrase, as `recover_by` does. The error is the one of
/// `combine_quorum`.
///
/// The caller makes sure that the names are a quorum of the set (`s39_set::is_quorum`).
///
/// ```rust
/// let mut set = ShareSet::new();
/// set.add(parse(
///     b"duckling enlarge academic academic agency result length solution fridge kidney coal \
///     piece deal husband erode duke ajar critical decision keyboard",
/// )?)?;
/// let quorum = first(&set)?;
/// let secret = recover_quorum(&set, &quorum, b"TREZOR")?;
/// assert!(rt; secret.starts_with(b"\xbb\x54\xaa\xc4\xb8\x9d\xc8\x68"));
/// ```
pub fn recover_quorum(set: &ShareSet, quorum: &Quorum, passphrase: &[u8]) -> Result<Bytes, Mismatch>
    requires { IsQuorum set.now quorum.now }
    ensures secret { IfOk result (λ secret.
        IsOutcome set.now quorum.now passphrase.now (Ok secret.items)) }
    ensures mismatch { IfErr result (λ mismatch.
        IsOutcome set.now quorum.now passphrase.now (Err mismatch)) }
    ensures length { IfOk result (λ secret.
        All (λ share. array_vec_len share.value ≡ array_vec_len secret) set.now) }
    // Shares of a created backup give its secret, with the passphrase of the creation.
    ensures created { (secret : List ℕ) → AreOfBackup set.now passphrase.now secret
        → IsOkAnd result (λ recovered. recovered.items ≡ secret) }
{
    are_a_share_set(set);
    one_outcome();
    every_quorum_recovers();
    let encrypted = combine_quorum(set, quorum)?;
    Ok(decrypt(&encrypted, passphrase, params_of(set, quorum)))
}
