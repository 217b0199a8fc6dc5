//! What the shares of a quorum combine to (SLIP-0039, "Shamir's secret sharing").
ghost use Rattle.std.specs.Prelude.{◌≡◌, [], ◌≤◌, ◌%◌, ℕ, List, map, All, Contains, IfOk, IsOkAnd};
ghost use Rattle.std.specs.Option.{option_map};
ghost use Rattle.std.specs.Result.{result_ok, result_map_both};
ghost use Rattle.arrayvec.specs.ArrayVec.{array_vec_len};
ghost use Rattle.s39_kdf.specs.Limits.{shortest_secret};
ghost use Rattle.s39_lists.specs.Each.{each};
ghost use Rattle.s39_split.specs.Recovery.{combined};
ghost use Rattle.s39_set.specs.ShareSet.{IsShareSet, name_of};
ghost use Rattle.s39_set.specs.Quorums.{IsQuorum};
ghost use Rattle.s39_backup.specs.Combination.{combination_of, in_bytes, group_share, member_shares, groups_of, value_of};
ghost use Rattle.s39_backup.specs.Outcome.{AreParams};
ghost use Rattle.s39_backup.specs.RecoverError.{mismatch_cause_of};
ghost use Rattle.s39_backup.specs.Created.{AreOfBackup};
ghost use Rattle.s39_backup.specs.GroupShares.{IsExactQuorum, AreOfOneLevel, indexed_group_shares};

use crate::laws::every_quorum_combines;
use arrayvec::ArrayVec;
use s39_kdf::{Bytes, Params};
use s39_refusal::{Cause, code};
use s39_set::laws::quorums_are_exact;
use s39_set::{MAX_GROUPS, Quorum, ShareSet, are_a_share_set, share_at};
use s39_split::{DigestMismatch, MAX_SHARES, Points, combine};
use s39_words::Share;

/// The shares whose digest doesn't match what they combine to (SLIP-0039, "Shamir's secret sharing"). One of them is
/// wrong, or they aren't all from one split.
#[derive(Clone, Copy, Debug, PartialEq, Eq)]
pub enum Mismatch {
    /// The member shares of this group, counted from 0: the first of those combined whose digest doesn't match.
    InGroup { group: u8 },
    /// The group shares. In each group that was combined, the digest of the member shares matches.
    OfGroups,
}

impl Mismatch {
    /// Returns the number of the refusal, 51, and the group, or `s39_refusal::code::OF_GROUPS`.
    pub fn cause(&self) -> Cause
        ensures { result ≡ mismatch_cause_of self.now }
    {
        match self {
            Mismatch::InGroup { group } => DigestMismatch.cause(u64::from(*group)),
            Mismatch::OfGroups => DigestMismatch.cause(code::OF_GROUPS),
        }
    }
}

/// Group shares, each its group index and its bytes. An `ArrayVec` fills its unused places, and `None` takes less time than
/// the zeros of a share.
pub(crate) type GroupShares = ArrayVec<Option<(u8, Bytes)>, MAX_SHARES>;

/// Combines the shares of a quorum of the set to the encrypted master secret (SLIP-0039, "Shamir's secret sharing"). It
/// combines the member shares of each group, and then the group shares.
///
/// The encrypted secret is as long as the values of the set's shares: an even number of bytes, from 16 to 128. If a
/// digest doesn't match, the error names the lowest group in which it doesn't, or else the group shares.
///
/// The caller makes sure that the names are a quorum of the set (`s39_set::is_quorum`).
///
/// ```rust
/// let mut set = ShareSet::new();
/// set.add(parse(
///     b"duckling enlarge academic academic agency result length solution fridge kidney coal \
///     piece deal husband erode duke ajar critical decision keyboard",
/// )?)?;
/// let quorum = first(&set)?;
/// let encrypted = combine_quorum(&set, &quorum)?;
/// assert!(rt; encrypted.starts_with(b"\x11\xbc\x60\x9d\x21\x74\x7c\x49"));
/// ```
pub fn combine_quorum(set: &ShareSet, quorum: &Quorum) -> Result<Bytes, Mismatch>
    requires { IsQuorum set.now quorum.now }
    ensures combination { combination_of set.now quorum.now ≡ in_bytes result }
    ensures length { IfOk result (λ encrypted.
        All (λ share. array_vec_len share.value ≡ array_vec_len encrypted) set.now) }
    ensures even { IfOk result (λ encrypted. array_vec_len encrypted % 2 ≡ 0) }
    ensures long { IfOk result (λ encrypted. shortest_secret ≤ array_vec_len encrypted) }
    // Shares of a created backup combine to its encrypted secret.
    ensures created { (passphrase secret : List ℕ) (backup : AreOfBackup set.now passphrase secret)
        → IsOkAnd result (λ encrypted. encrypted.items ≡ backup.created.encrypted) }
{
    are_a_share_set(set);
    every_quorum_combines();
    quorums_are_exact();
    let mut shares = GroupShares::new();
    group_shares(set, quorum.pairs(), &mut shares)?;
    match combine_all(&lend(&shares)) {
        Ok(encrypted) => Ok(encrypted),
        Err(DigestMismatch) => Err(Mismatch::OfGroups),
    }
}

/// Returns the parameters of the cipher: the identifier, the extendable flag and the iteration exponent, in which all
/// shares of the set agree (SLIP-0039, "Format of the share mnemonic").
///
/// The caller makes sure that the names are a quorum of the set, so that the set has a share.
///
/// ```rust
/// let mut set = ShareSet::new();
/// set.add(parse(
///     b"duckling enlarge academic academic agency result length solution fridge kidney coal \
///     piece deal husband erode duke ajar critical decision keyboard",
/// )?)?;
/// let quorum = first(&set)?;
/// let params = params_of(&set, &quorum);
/// assert_eq!(rt; (params.id, params.exponent), (7945, 0));
/// ```
pub fn params_of(set: &ShareSet, quorum: &Quorum) -> Params
    requires { IsQuorum set.now quorum.now }
    ensures { AreParams set.now result }
{
    let fields = first_share(set, quorum.pairs()).fields();
    Params {
        id: fields.id,
        extendable: fields.extendable,
        exponent: fields.exponent,
    }
}

/// The share of the first name of a quorum.
fn first_share<'a>(set: &'a ShareSet, names: &[(u8, u8)]) -> &'a Share
    requires { IsQuorum set.now names.now }
    ensures among { Contains set.now result.now }
    ensures is_set { IsShareSet set.now }
{
    are_a_share_set(set);
    quorums_are_exact();
    let name = names[0];
    share_at(set, name.0, name.1).unwrap()
}

/// Fills an empty list with the group shares to which the shares of each group combine, or names the first group that is
/// refused. A list that is returned would be copied, with its unused places.
fn group_shares(
    set: &ShareSet,
    names: &[(u8, u8)],
    shares: &mut GroupShares,
) -> Result<(), Mismatch>
    requires quorum { IsExactQuorum set.now names.now }
    requires empty { shares.old.items ≡ [] }
    ensures { each (group_share set.now names.now) (groups_of names.now)
        ≡ result_map_both (λ _. indexed_group_shares shares.new.items) (λ mismatch. mismatch) result }
{
    for group in 0..MAX_GROUPS {
        let members = member_shares(set, names, group);
        if !members.is_empty() {
            let Ok(share) = combine_all(&members) else {
                return Err(Mismatch::InGroup { group });
            };
            shares.push(Some((group, share)));
        }
    }
    Ok(())
}

/// The shares of a group among these names, each as its member index and its lent value.
fn member_shares<'a>(set: &'a ShareSet, names: &[(u8, u8)], group: u8) -> Points<'a>
    requires { IsExactQuorum set.now names.now }
    ensures { result ≡ member_shares set.now names.now group }
{
    let mut shares = Points::new();
    for (of, member) in names {
        if *of == group {
            shares.push(*member, lent_value(set, group, *member));
        }
    }
    shares
}

/// The value of the share of this group and member index, which the set has.
fn lent_value(set: &ShareSet, group: u8, member: u8) -> &Bytes
    requires { Contains (map name_of set.now) (group, member) }
    ensures { result.now.items ≡ value_of set.now (group, member) }
{
    share_at(set, group, member).unwrap().value()
}

/// These shares, lent.
pub(crate) fn lend(shares: &GroupShares) -> Points<'_>
    ensures { result ≡ indexed_group_shares shares.now.items }
{
    let mut lent = Points::new();
    for share in shares.as_slice() {
        if let Some((index, bytes)) = share {
            lent.push(*index, bytes);
        }
    }
    lent
}

/// What shares combine to, if there are exactly as many as their threshold.
pub(crate) fn combine_all(shares: &Points<'_>) -> Result<Bytes, DigestMismatch>
    requires { (bytes : ℕ) × AreOfOneLevel bytes shares.now }
    ensures { option_map (λ secret. secret.items) (result_ok result) ≡ combined shares.now }
{
    combine(shares.len() as u8, shares.as_slice())
}
