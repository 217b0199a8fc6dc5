//! The creation of a backup (SLIP-0039, "Shamir's secret sharing" and "Encryption of the master secret").
ghost use Rattle.std.specs.Prelude.{◌≡◌, ℕ, ◌+◌, ◌*◌, ◌<◌, ◌≤◌, sum_by, List, [], ◌∷◌, ◌++◌, length, All, Ok, Err, IfErr, OnOk, OnErr};
ghost use Rattle.arrayvec.specs.ArrayVec.{array_vec_len};
ghost use Rattle.s39_kdf.specs.Limits.{IsSecretLength};
ghost use Rattle.s39_split.specs.Shares.{bytes_of};
ghost use Rattle.s39_split.specs.Sharing.{random_needed as level_random_needed, IsSplit};
ghost use Rattle.s39_set.specs.Names.{most_groups, most_members};
ghost use Rattle.s39_backup.specs.Plan.{IsPlan, IsGroup};
ghost use Rattle.s39_backup.specs.Created.{identifier_length, identifier_of, AreCreatedParams, IsCreatedFrom, IsCreation, created_share, created_group, random_needed};
ghost use Rattle.s39_backup.specs.Asking.{asked_of};
ghost use Rattle.s39_backup.specs.Resplit.{AreSplitByPlan};
ghost use Rattle.s39_backup.specs.Building.{IsHeader, ShareOneLength, AreCreatedGroups};

use crate::create_error::CreateError;
use crate::created::Created;
use crate::options::Options;
use crate::plan::{Members, Plan};
use s39_kdf::{Bytes, Params, check_passphrase, check_secret, encrypt};
use s39_split::{MAX_SHARES, random_needed, split};
use s39_words::{ID_BITS, Share, ShareFields};

/// How many random bytes the identifier takes.
pub(crate) const ID_BYTES: usize = 2;

/// Creates a backup of a secret with a passphrase (SLIP-0039, "Encryption of the master secret" and "Generating the
/// shares"). It replaces the shares that `out` had with those of the backup, ordered by group and then by member.
///
/// The random bytes are consumed in this order: two for the identifier, big-endian and without the highest bit; those
/// of the group level; then those of each group in order. Each level takes as many as `s39_split::random_needed` says,
/// and all of them together as many as `Plan::random_needed` says.
///
/// The first error that applies is returned, and then `out` is unchanged:
///
/// - `Passphrase` if a byte of the passphrase isn't printable ASCII;
/// - `SecretLength` if the secret has an odd number of bytes, fewer than 16, or more than 128;
/// - `BadRandomLength` if there are more or fewer random bytes than the backup takes, with that number.
///
/// ```rust
/// let plan = Plan::parse("1of1")?;
/// let secret = *b"\xbb\x54\xaa\xc4\xb8\x9d\xc8\x68\xba\x37\xd9\xcc\x21\xb2\xce\xce";
/// let options = Options {
///     exponent: 0,
///     extendable: false,
/// };
/// let random = b"\x1f\x09";
/// let mut created = Created::new();
/// create(&plan, &secret, b"TREZOR", options, random, &mut created)?;
/// assert_eq!(rt; created.shares().len(), 1);
/// assert!(rt; print(&created.shares()[0]).starts_with(b"duckling enlarge academic academic "));
/// ```
pub fn create(
    plan: &Plan,
    secret: &[u8],
    passphrase: &[u8],
    options: Options,
    random: &[u8],
    out: &mut Created,
) -> Result<(), CreateError>
    ensures created { OnOk result (IsCreation
        (asked_of plan.now secret.now passphrase.now options) random.now (Ok out.new)) }
    ensures refused { IfErr result (λ error. IsCreation
        (asked_of plan.now secret.now passphrase.now options) random.now (Err error)) }
    ensures unchanged { OnErr result (out.new ≡ out.old) }
{
    check_passphrase(passphrase).map_err(CreateError::Passphrase)?;
    let secret = check_secret(secret).map_err(CreateError::SecretLength)?;
    let needed = plan.random_needed(secret.len());
    if random.len() != needed {
        return Err(CreateError::BadRandomLength { needed });
    }
    create_shares(plan, &secret, passphrase, options, random, out);
    Ok(())
}

/// Creates the shares of a backup whose secret and random bytes have the right lengths.
fn create_shares(
    plan: &Plan,
    secret: &Bytes,
    passphrase: &[u8],
    options: Options,
    random: &[u8],
    out: &mut Created,
)
    requires secret { IsSecretLength (array_vec_len secret.now) }
    requires random { length random.now
        ≡ random_needed plan.now.group_threshold plan.now.groups.items (array_vec_len secret.now) }
    ensures { IsCreatedFrom (asked_of plan.now secret.now.items passphrase.now options)
        random.now out.new }
{
    let (id, levels) = random.split_at(ID_BYTES);
    let params = params_from(id[0], id[1], options);
    let encrypted = encrypt(secret, passphrase, params);
    split_encrypted(plan, &encrypted, params, levels, out);
}

/// Replaces the shares with those of a backup with these parameters, in which an encrypted secret is split by a plan.
pub(crate) fn split_encrypted(
    plan: &Plan,
    encrypted: &Bytes,
    params: Params,
    random: &[u8],
    out: &mut Created,
)
    requires secret { IsSecretLength (array_vec_len encrypted.now) }
    requires random { identifier_length + length random.now
        ≡ random_needed plan.now.group_threshold plan.now.groups.items (array_vec_len encrypted.now) }
    ensures { AreSplitByPlan params plan.now.group_threshold plan.now.groups.items
        encrypted.now.items random.now out.new }
{
    let needed = random_needed(plan.group_threshold, encrypted.len());
    let (piece, pieces) = random.split_at(needed);
    let mut group_shares: [Bytes; MAX_SHARES] = Default::default();
    let group_shares = &mut group_shares[..plan.groups.len()];
    split(plan.group_threshold, encrypted, piece, group_shares);
    let header = Header {
        params,
        group_threshold: plan.group_threshold,
        group_count: plan.groups.len() as u8,
    };
    push_groups(&header, &plan.groups, group_shares, pieces, out);
}

/// The parameters of the cipher, with the identifier of these two random bytes.
pub(crate) fn params_from(high: u8, low: u8, options: Options) -> Params
    ensures { AreCreatedParams options high low result }
{
    Params {
        id: u16::from_be_bytes([high, low]) % (1 << ID_BITS),
        extendable: options.extendable,
        exponent: options.exponent,
    }
}

/// What all shares of a backup have in common.
#[derive(Clone, Copy)]
struct Header {
    params: Params,
    group_threshold: u8,
    group_count: u8,
    ghost is_header: { IsHeader group_threshold group_count },
}

/// Appends the shares of all groups. Each group's shares are split from its group share by its piece of the random
/// bytes.
fn push_groups(
    header: &Header,
    groups: &[Members],
    group_shares: &[Bytes],
    random: &[u8],
    out: &mut Created,
)
    requires groups { All IsGroup groups.now }
    requires few { length groups.now ≤ most_groups }
    requires as_many { length group_shares.now ≡ length groups.now }
    requires lengths { ShareOneLength group_shares.now (λ n. IsSecretLength n
        × (length random.now
        ≡ sum_by (λ members. level_random_needed members.threshold n) groups.now)) }
    ensures { AreCreatedGroups header.now.params header.now.group_threshold header.now.group_count
        groups.now (bytes_of group_shares.now) random.now [] out.new }
{
    out.clear();
    let mut rest = random;
    for (group, members) in groups.iter().enumerate() {
        let share = &group_shares[group];
        let needed = random_needed(members.threshold, share.len());
        let (piece, others) = rest.split_at(needed);
        push_group(header, group as u8, *members, share, piece, out);
        rest = others;
    }
}

/// Appends the shares of the members of a group.
fn push_group(
    header: &Header,
    group: u8,
    members: Members,
    group_share: &Bytes,
    random: &[u8],
    out: &mut Created,
)
    requires group { IsGroup members }
    requires in_range { group < most_groups }
    requires room { length out.old ≤ most_members * group }
    requires length { IsSecretLength (array_vec_len group_share.now) }
    requires random { length random.now
        ≡ level_random_needed members.threshold (array_vec_len group_share.now) }
    ensures shares { (values : List (List ℕ))
        × IsSplit members.threshold members.count group_share.now.items random.now values
        × (out.new ≡ out.old ++ created_group header.now.params header.now.group_threshold
        header.now.group_count group members values) }
    ensures room { length out.new ≤ most_members * (group + 1) }
{
    let mut values: [Bytes; MAX_SHARES] = Default::default();
    let values = &mut values[..usize::from(members.count)];
    split(members.threshold, group_share, random, values);
    for (member, value) in values.iter().enumerate() {
        out.push(share_of(header, group, members, member as u8, value.as_slice()));
    }
}

/// The share with this group and member index.
fn share_of(header: &Header, group: u8, members: Members, member: u8, value: &[u8]) -> Share
    requires members { IsGroup members }
    requires group { group < most_groups }
    requires member { member < most_members }
    requires value { IsSecretLength (length value.now) }
    ensures { result ≡ created_share header.now.params header.now.group_threshold
        header.now.group_count group members member value.now }
{
    let fields = ShareFields {
        id: header.params.id,
        extendable: header.params.extendable,
        exponent: header.params.exponent,
        group_index: group,
        group_threshold: header.group_threshold,
        group_count: header.group_count,
        member_index: member,
        member_threshold: members.threshold,
        value: Bytes::try_from(value).unwrap(),
    };
    Share::new(fields).unwrap()
}
