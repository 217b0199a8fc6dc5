//! The random bytes by which another secret has the same shares, at names that are two short of the thresholds.
ghost use Rattle.std.specs.Prelude.{◌≡◌, ℕ, ◌+◌, ◌-◌, ◌*◌, ◌<◌, ◌≤◌, ◌↔◌, sum_by, List, length, map, get_or, All, AllPairs, Contains, IsTrue, [], true, false};
ghost use Rattle.arrayvec.specs.ArrayVec.{array_vec_len};
ghost use Rattle.s39_kdf.specs.Bytes.{AreBytes};
ghost use Rattle.s39_kdf.specs.Limits.{shortest_secret, IsSecretLength};
ghost use Rattle.s39_split.specs.Shares.{bytes_of};
ghost use Rattle.s39_split.specs.Sharing.{most_shares, random_needed as level_random_needed, IsSplit};
ghost use Rattle.s39_words.specs.declared.share.ShareFields.{ShareFields};
ghost use Rattle.s39_set.specs.Names.{most_groups, names_in_group, AreNames};
ghost use Rattle.s39_backup.specs.Plan.{IsGroup};
ghost use Rattle.s39_backup.specs.Created.{random_needed, IsCreatedFrom};
ghost use Rattle.s39_backup.specs.Asking.{asked_of};
ghost use Rattle.s39_backup.specs.Building.{ShareOneLength};
ghost use Rattle.s39_backup.specs.TwoShort.{IsTwoShort};
ghost use Rattle.s39_backup.specs.Correspondence.{StayTheSame, CorrespondAtLevel, CorrespondInGroup, Correspond};
ghost use Rattle.s39_backup.specs.Refitting.{AreKept, AreNamesOfGroups, CorrespondInGroups};
ghost use Rattle.s39_backup.specs.InCommon.{HaveTheShare};

use crate::creation::{ID_BYTES, params_from};
use crate::options::Options;
use crate::plan::{Members, Plan};
use crate::two_short::{Indices, are_two_short, held_groups, is_held, members_among};
use s39_kdf::{Bytes, encrypt};
use s39_set::Quorum;
use s39_split::{DIGEST_BYTES, MAX_SHARES, Points, fit, random_needed, split};

/// Changes random bytes so that a backup of another secret has the same shares with the names in `keep`. This works if
/// the names are two short of the plan's thresholds, and the function returns whether they are (SLIP-0039, "Sharing a
/// secret").
///
/// Names hold a group if they have at least one name of it, and more names of it than its member threshold minus two.
/// They are two short if the plan has all of them, and they hold at most as many groups as the group threshold minus
/// two, or none if it is 1.
///
/// On `true`, `random` holds new bytes. From `other` and the new bytes, `create` makes the same shares with these names
/// as from `secret` and the old bytes. The plan, the passphrase and the options stay the same. So these shares fit
/// either secret. On `false`, `random` is unchanged.
///
/// At each level the key of the digest stays. As many shares as the threshold less two stay too: those that are kept,
/// and the lowest others. So `refit` from `other` back to `secret`, with the same names, restores the old bytes.
///
/// The caller passes what `create` accepts: two secrets of the same even length, from 16 to 128 bytes, and exactly as
/// many random bytes as `Plan::random_needed` says.
///
/// ```rust
/// let plan = Plan::parse("3of3")?;
/// let options = Options {
///     exponent: 0,
///     extendable: false,
/// };
/// let mut random = [3; 30];
/// assert_eq!(rt; random.len(), plan.random_needed(16));
/// let keep = parse_quorum(b"0.1")?;
/// let fits = refit(&plan, &[1; 16], &[2; 16], b"", options, &keep, &mut random);
/// assert!(rt; fits);
/// let mut created = Created::new();
/// create(&plan, &[2; 16], b"", options, &random, &mut created)?;
/// // The second share is the one that `create` gives from the first secret and the old bytes.
/// assert_eq!(rt; created.shares().len(), 3);
/// assert!(rt; print(&created.shares()[1]).starts_with(b"alarm branch academic agree advocate "));
/// ```
pub fn refit(
    plan: &Plan,
    secret: &[u8],
    other: &[u8],
    passphrase: &[u8],
    options: Options,
    keep: &Quorum,
    random: &mut [u8],
) -> bool
    requires secret { IsSecretLength (length secret.now) }
    requires one_length { length other.now ≡ length secret.now }
    requires random { length random.old
        ≡ random_needed plan.now.group_threshold plan.now.groups.items (length secret.now) }
    ensures two_short { IsTrue result
        ↔ IsTwoShort plan.now.group_threshold plan.now.groups.items keep.now }
    ensures unchanged { result ≡ false → random.new ≡ random.old }
    ensures corresponds { IsTrue result → Correspond keep.now
        (asked_of plan.now secret.now passphrase.now options) other.now random.old random.new }
    // The backups of both secrets have the same shares with these names.
    ensures kept { IsTrue result → (shares others : List ShareFields)
        → IsCreatedFrom (asked_of plan.now secret.now passphrase.now options) random.old shares
        → IsCreatedFrom (asked_of plan.now other.now passphrase.now options) random.new others
        → All (HaveTheShare shares others) keep.now }
{
    if !are_two_short(plan, keep.pairs()) {
        return false;
    }
    let secret = Bytes::try_from(secret).unwrap();
    let other = Bytes::try_from(other).unwrap();
    refit_backup(
        plan,
        &secret,
        &other,
        passphrase,
        options,
        keep.pairs(),
        random,
    );
    true
}

/// Refits the random bytes of all levels, for names that are two short.
fn refit_backup(
    plan: &Plan,
    secret: &Bytes,
    other: &Bytes,
    passphrase: &[u8],
    options: Options,
    names: &[(u8, u8)],
    random: &mut [u8],
)
    requires secret { IsSecretLength (array_vec_len secret.now) }
    requires one_length { array_vec_len other.now ≡ array_vec_len secret.now }
    requires random { length random.old
        ≡ random_needed plan.now.group_threshold plan.now.groups.items (array_vec_len secret.now) }
    requires names { AreNames names.now }
    requires two_short { IsTwoShort plan.now.group_threshold plan.now.groups.items names.now }
    ensures { Correspond names.now (asked_of plan.now secret.now.items passphrase.now options)
        other.now.items random.old random.new }
{
    let (id, levels) = random.split_at_mut(ID_BYTES);
    let params = params_from(id[0], id[1], options);
    let encrypted = encrypt(secret, passphrase, params);
    let other_encrypted = encrypt(other, passphrase, params);
    let groups = plan.groups.as_slice();
    let held = held_groups(groups, names);
    let (piece, pieces) = levels.split_at_mut(random_needed(plan.group_threshold, encrypted.len()));
    let mut shares: [Bytes; MAX_SHARES] = Default::default();
    let mut others: [Bytes; MAX_SHARES] = Default::default();
    let shares = &mut shares[..groups.len()];
    let others = &mut others[..groups.len()];
    refit_level(
        plan.group_threshold,
        &encrypted,
        &other_encrypted,
        held.as_slice(),
        piece,
        shares,
        others,
    );
    refit_groups(names, 0, groups, shares, others, pieces);
}

/// Refits the random bytes of the groups from this one on, whose group shares are given for both secrets.
fn refit_groups(
    names: &[(u8, u8)],
    group: u8,
    groups: &[Members],
    shares: &[Bytes],
    others: &[Bytes],
    random: &mut [u8],
)
    requires names { AreNames names.now }
    requires groups { All IsGroup groups.now }
    requires few { group + length groups.now ≤ most_groups }
    requires as_many { length shares.now ≡ length groups.now }
    requires as_many_others { length others.now ≡ length groups.now }
    requires lengths { ShareOneLength shares.now (λ n. IsSecretLength n
        × All (λ share. array_vec_len share ≡ n) others.now
        × (length random.old
        ≡ sum_by (λ members. level_random_needed members.threshold n) groups.now)) }
    requires of_plan { AreNamesOfGroups names.now group groups.now }
    ensures { CorrespondInGroups names.now group groups.now
        (bytes_of shares.now) (bytes_of others.now) random.old random.new }
{
    if groups.is_empty() {
        return;
    }
    let members = groups[0];
    let needed = random_needed(members.threshold, shares[0].len());
    let (piece, pieces) = random.split_at_mut(needed);
    refit_group(names, group, members, &shares[0], &others[0], piece);
    refit_groups(
        names,
        group + 1,
        &groups[1..],
        &shares[1..],
        &others[1..],
        pieces,
    );
}

/// Refits the random bytes of a group's members for another group share, or leaves them unchanged if the group is held.
fn refit_group(
    names: &[(u8, u8)],
    group: u8,
    members: Members,
    share: &Bytes,
    other: &Bytes,
    random: &mut [u8],
)
    requires names { AreNames names.now }
    requires group { IsGroup members }
    requires length { IsSecretLength (array_vec_len share.now) }
    requires one_length { array_vec_len other.now ≡ array_vec_len share.now }
    requires random { length random.old
        ≡ level_random_needed members.threshold (array_vec_len share.now) }
    requires of_plan { All (λ name. name.1 < members.count) (names_in_group group names.now) }
    ensures { CorrespondInGroup names.now group members share.now.items other.now.items
        random.old random.new }
{
    if is_held(names, group, members) {
        are_bytes(share.as_slice());
        are_bytes(other.as_slice());
        return;
    }
    let kept = members_among(names, group);
    let mut values: [Bytes; MAX_SHARES] = Default::default();
    let mut others: [Bytes; MAX_SHARES] = Default::default();
    let values = &mut values[..usize::from(members.count)];
    let others = &mut others[..usize::from(members.count)];
    refit_level(
        members.threshold,
        share,
        other,
        kept.as_slice(),
        random,
        values,
        others,
    );
}

/// The elements of a slice of bytes are bytes.
fn are_bytes(bytes: &[u8])
    ensures { AreBytes bytes.now }
{}

/// Splits two secrets, and refits the random bytes of the other so that the kept shares are the same.
fn refit_level(
    t: u8,
    secret: &Bytes,
    other: &Bytes,
    kept: &[u8],
    random: &mut [u8],
    shares: &mut [Bytes],
    others: &mut [Bytes],
)
    requires positive { 1 ≤ t }
    requires enough { t ≤ length shares.old }
    requires few { length shares.old ≤ most_shares }
    requires as_many { length others.old ≡ length shares.old }
    requires long { shortest_secret ≤ array_vec_len secret.now }
    requires one_length { array_vec_len other.now ≡ array_vec_len secret.now }
    requires random { length random.old ≡ level_random_needed t (array_vec_len secret.now) }
    requires kept { AreKept t (length shares.old) kept.now }
    ensures levels { CorrespondAtLevel t (length shares.old) secret.now.items other.now.items kept.now
        random.old random.new (bytes_of shares.new) (bytes_of others.new) }
    ensures length { All (λ share. array_vec_len share ≡ array_vec_len secret.now) shares.new }
    ensures other_length { All (λ share. array_vec_len share ≡ array_vec_len secret.now)
        others.new }
{
    split(t, secret, random, shares);
    if t > 1 {
        fit_level(t, shares, other, kept, random);
    }
    split(t, other, random, others);
}

/// Makes the random bytes, after the key of the digest, those by which a split of the secret has the kept shares, and
/// the lowest others up to the threshold less two.
fn fit_level(t: u8, shares: &[Bytes], secret: &Bytes, kept: &[u8], random: &mut [u8])
    requires several { 2 ≤ t }
    requires enough { t ≤ length shares.now }
    requires few { length shares.now ≤ most_shares }
    requires long { shortest_secret ≤ array_vec_len secret.now }
    requires one_length { All (λ share. array_vec_len share ≡ array_vec_len secret.now) shares.now }
    requires random { length random.old ≡ level_random_needed t (array_vec_len secret.now) }
    requires kept { AreKept t (length shares.now) kept.now }
    ensures { (fitted : List (List ℕ)) × IsSplit t most_shares secret.now.items random.new fitted
        × StayTheSame t secret.now.items kept.now random.old random.new (bytes_of shares.now) fitted }
{
    let indices = with_lowest(kept, t - 2, shares.len() as u8);
    let known = lend(shares, indices.as_slice());
    let key_length = secret.len() - DIGEST_BYTES;
    let fitted = fit(t, secret, &random[..key_length], known.as_slice());
    random.copy_from_slice(&fitted);
}

/// Exactly `number` indices in order: those that are kept, and the lowest others.
fn with_lowest(kept: &[u8], number: u8, count: u8) -> Indices
    requires kept { AllPairs (λ a b. a < b) kept.now }
    requires below { All (λ index. index < count) kept.now }
    requires few { length kept.now ≤ number }
    requires enough { number ≤ count }
    requires places { count ≤ most_shares }
    ensures ascending { AllPairs (λ a b. a < b) result.items }
    ensures below { All (λ index. index < count) result.items }
    ensures number { length result.items ≡ number }
    ensures kept { All (Contains result.items) kept.now }
    ensures lowest { (i j : ℕ) → i < j → Contains result.items j → ¬ Contains kept.now j
        → Contains result.items i }
{
    let mut indices = Indices::new();
    let mut next = 0;
    let mut others = usize::from(number) - kept.len();
    for index in 0..count {
        if next < kept.len() && kept[next] == index {
            next += 1;
            indices.push(index);
        } else if others > 0 {
            others -= 1;
            indices.push(index);
        }
    }
    indices
}

/// The shares with these indices, lent.
fn lend<'a>(shares: &'a [Bytes], indices: &[u8]) -> Points<'a>
    requires few { length indices.now ≤ most_shares }
    requires below { All (λ index. index < length shares.now) indices.now }
    ensures { result ≡ map (λ index. (index, get_or (bytes_of shares.now) index [])) indices.now }
{
    let mut known = Points::new();
    for index in indices {
        known.push(*index, &shares[usize::from(*index)]);
    }
    known
}
