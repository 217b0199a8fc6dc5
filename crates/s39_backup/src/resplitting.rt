//! Backups whose encrypted secret is split, by a plan, without a passphrase (SLIP-0039, "Shamir's secret sharing").
ghost use Rattle.std.specs.Prelude.{◌≡◌, ℕ, List, Ok, Err, IfOk, IfErr, OnOk, OnErr};
ghost use Rattle.std.specs.Result.{result_map_both};
ghost use Rattle.arrayvec.specs.ArrayVec.{array_vec_len};
ghost use Rattle.s39_kdf.specs.Cipher.{IsEncryption};
ghost use Rattle.s39_kdf.specs.Limits.{IsSecretLength};
ghost use Rattle.s39_set.specs.Names.{Names};
ghost use Rattle.s39_set.specs.Quorums.{IsLeastQuorum};
ghost use Rattle.s39_backup.specs.Outcome.{IsOutcome};
ghost use Rattle.s39_backup.specs.Created.{AreOfBackup};
ghost use Rattle.s39_backup.specs.Resplit.{AreNewParams, judged_split, IsCreationFromEncrypted, IsResplit};

use crate::combination::{combine_quorum, params_of};
use crate::created::Created;
use crate::creation::{ID_BYTES, params_from, split_encrypted};
use crate::options::Options;
use crate::plan::Plan;
use crate::resplit_error::ResplitError;
use crate::resplit_laws::{encrypted_secrets_are_split_as_created, resplits_are_created_backups};
use s39_kdf::{Bytes, Params};
use s39_set::{ShareSet, are_a_share_set, first};

/// Splits the encrypted secret of an extendable backup anew, by a plan, without a passphrase and without the
/// secret (SLIP-0039, "Shamir's secret sharing"). It replaces the shares that `out` had with those of the new backup,
/// ordered by group and then by member.
///
/// The encrypted secret is what the least quorum of the set combines to (`s39_set::first`). The new backup has the
/// extendable flag and the iteration exponent of the old one. With any printable passphrase, it is the backup that
/// `create` makes by this plan and these random bytes from the secret that this quorum recovers. With any passphrase,
/// each quorum of the new shares recovers the same secret as this quorum. The random bytes are as many as `create` takes,
/// and are consumed in the same order.
///
/// The first error that applies is returned, and then `out` is unchanged:
///
/// - `Lack` if the set has no quorum;
/// - `DigestMismatch` if a digest of the least quorum doesn't match;
/// - `NotExtendable` if the backup isn't extendable;
/// - `BadRandomLength` if there are more or fewer random bytes than `Plan::random_needed` says, with that number;
/// - `SameIdentifier` if the first two random bytes give the identifier that the backup has.
///
/// ```rust
/// let mut set = ShareSet::new();
/// set.add(parse(
///     b"enemy favorite academic acid cowboy phrase havoc level response walnut budget painting \
///     inside trash adjust froth kitchen learn tidy punish",
/// )?)?;
/// set.add(parse(
///     b"enemy favorite academic always academic sniff script carpet romp kind promise scatter \
///     center unfair training emphasis evening belong fake enforce",
/// )?)?;
/// let plan = Plan::parse("1of1")?;
/// let mut created = Created::new();
/// resplit(&plan, &set, b"\x12\x34", &mut created)?;
/// assert_eq!(rt; created.shares().len(), 1);
/// assert!(rt; print(&created.shares()[0]).starts_with(b"cleanup pecan academic academic broken "));
/// ```
pub fn resplit(
    plan: &Plan,
    set: &ShareSet,
    random: &[u8],
    out: &mut Created,
) -> Result<(), ResplitError>
    ensures resplit { OnOk result (IsResplit set.now plan.now.group_threshold plan.now.groups.items
        random.now (Ok out.new)) }
    ensures refused { IfErr result (λ error. IsResplit set.now plan.now.group_threshold
        plan.now.groups.items random.now (Err error)) }
    ensures unchanged { OnErr result (out.new ≡ out.old) }
    // The new shares are of a backup of the secret that the least quorum recovers, with any passphrase.
    ensures created { (names : Names) (passphrase secret : List ℕ)
        → IsLeastQuorum set.now names → IsOutcome set.now names passphrase (Ok secret)
        → OnOk result (AreOfBackup out.new passphrase secret) }
    // From shares of a created backup, they are of a backup of its secret.
    ensures of_created { (passphrase secret : List ℕ) → AreOfBackup set.now passphrase secret
        → OnOk result (AreOfBackup out.new passphrase secret) }
{
    are_a_share_set(set);
    resplits_are_created_backups();
    let quorum = first(set)?;
    let old = params_of(set, &quorum);
    let encrypted = combine_quorum(set, &quorum)?;
    create_from_encrypted(plan, old, &encrypted, random, out)
}

/// Creates a backup of the encrypted secret of an extendable backup, by a plan, without a passphrase and without the
/// secret (SLIP-0039, "Shamir's secret sharing"). It replaces the shares that `out` had with those of the new backup,
/// ordered by group and then by member.
///
/// `old` are the parameters by which the secret is encrypted. The new backup has their extendable flag and their iteration
/// exponent. With any passphrase, each quorum of the new shares recovers the secret that this passphrase decrypts. The
/// random bytes are as many as `create` takes, and are consumed in the same order.
///
/// The caller makes sure that the encrypted secret is as long as a secret (`s39_kdf::check_secret`).
///
/// The first error that applies is returned, and then `out` is unchanged:
///
/// - `NotExtendable` if the backup isn't extendable;
/// - `BadRandomLength` if there are more or fewer random bytes than `Plan::random_needed` says, with that number;
/// - `SameIdentifier` if the first two random bytes give the identifier of `old`.
///
/// ```rust
/// let encrypted =
///     check_secret(b"\x14\xd7\x86\xbd\xb0\x0a\x6f\xef\x14\x16\x3f\x4e\xc9\x9b\xf2\x60")?;
/// let old = Params {
///     id: 7945,
///     extendable: true,
///     exponent: 2,
/// };
/// let plan = Plan::parse("1of1")?;
/// let mut created = Created::new();
/// create_from_encrypted(&plan, old, &encrypted, b"\x5a\x17", &mut created)?;
/// assert!(rt; print(&created.shares()[0]).starts_with(b"race retailer academic academic aircraft "));
/// ```
pub fn create_from_encrypted(
    plan: &Plan,
    old: Params,
    encrypted: &Bytes,
    random: &[u8],
    out: &mut Created,
) -> Result<(), ResplitError>
    requires { IsSecretLength (array_vec_len encrypted.now) }
    ensures created { OnOk result (IsCreationFromEncrypted old plan.now.group_threshold
        plan.now.groups.items random.now encrypted.now.items (Ok out.new)) }
    ensures refused { IfErr result (λ error. IsCreationFromEncrypted old plan.now.group_threshold
        plan.now.groups.items random.now encrypted.now.items (Err error)) }
    ensures unchanged { OnErr result (out.new ≡ out.old) }
    // The new shares are of a backup of the secret that is encrypted, with any passphrase.
    ensures of_backup { (passphrase secret : List ℕ)
        → IsEncryption secret passphrase old encrypted.now.items
        → OnOk result (AreOfBackup out.new passphrase secret) }
{
    encrypted_secrets_are_split_as_created();
    let params = new_params(plan, old, encrypted, random)?;
    split_encrypted(plan, encrypted, params, &random[ID_BYTES..], out);
    Ok(())
}

/// The parameters of the new backup, or why this encrypted secret of a backup with the old ones isn't split.
fn new_params(
    plan: &Plan,
    old: Params,
    encrypted: &Bytes,
    random: &[u8],
) -> Result<Params, ResplitError>
    requires { IsSecretLength (array_vec_len encrypted.now) }
    ensures judged { judged_split old plan.now.group_threshold plan.now.groups.items random.now
        (Ok encrypted.now.items)
        ≡ result_map_both (λ _. encrypted.now.items) (λ error. error) result }
    ensures params { IfOk result (AreNewParams old random.now) }
{
    if !old.extendable {
        return Err(ResplitError::NotExtendable);
    }
    let needed = plan.random_needed(encrypted.len());
    if random.len() != needed {
        return Err(ResplitError::BadRandomLength { needed });
    }
    let options = Options {
        exponent: old.exponent,
        extendable: old.extendable,
    };
    let params = params_from(random[0], random[1], options);
    if params.id == old.id {
        return Err(ResplitError::SameIdentifier);
    }
    Ok(params)
}
