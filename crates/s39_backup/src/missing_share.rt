//! Shares that aren't at hand, computed from those that are.
ghost use Rattle.std.specs.Prelude.{◌≡◌, ◌+◌, ◌<◌, ◌≤◌, ◌∷◌, ℕ, List, Some, Ok, length};
ghost use Rattle.std.specs.List.{slice_get};
ghost use Rattle.std.specs.Option.{option_map};
ghost use Rattle.std.specs.Result.{result_ok};
ghost use Rattle.arrayvec.specs.ArrayVec.{array_vec_len};
ghost use Rattle.s39_kdf.specs.Limits.{shortest_secret};
ghost use Rattle.s39_lists.specs.Each.{and_then, each};
ghost use Rattle.s39_split.specs.Sharing.{secret_place};
ghost use Rattle.s39_split.specs.Recovery.{combined};
ghost use Rattle.s39_split.specs.Completion.{completed};
ghost use Rattle.s39_set.specs.Names.{most_groups, most_members};
ghost use Rattle.s39_backup.specs.Created.{AreOfBackup};
ghost use Rattle.s39_backup.specs.Plan.{IsGroup, IsNameOfPlan};
ghost use Rattle.s39_backup.specs.Combination.{in_bytes};
ghost use Rattle.s39_backup.specs.GroupShares.{in_pairs, value_bytes_of};
ghost use Rattle.s39_backup.specs.Reissue.{AreOfPlan, least_members, members_at_hand, least_share, share_by_others, points_by_others, value_at, missing_value, missing_share, share_like, IsReissue, IsRightFor};
ghost use Rattle.s39_backup.specs.Reissuing.{ArePointsOfOneLevel, AreComplete};

use crate::at_hand::{any_share, least_members, other_groups, push_least};
use crate::combination::{GroupShares, Mismatch, combine_all, lend};
use crate::laws::backups_reissue_their_shares;
use crate::plan::{Members, Plan};
use crate::reissue_error::{ReissueError, TooFew};
use s39_kdf::Bytes;
use s39_set::{ShareSet, are_a_share_set, share_at};
use s39_split::{DigestMismatch, Points, SECRET_PLACE, complete};
use s39_words::{Share, ShareFields};

/// Computes the named share of a plan from the shares of a set, without the passphrase (SLIP-0039, "Shamir's secret
/// sharing"). The first of these that applies gives it:
///
/// - the set has the share;
/// - the set has at least as many members of its group as the member threshold: the lowest of them determine the share;
/// - the set has one member fewer, and the number of other complete groups is at least the group threshold: the lowest
///   of these groups give the group's share, which determines the share together with the members.
///
/// The error is `Undetermined` if none of them applies, with what is at hand and what is needed. It is `DigestMismatch`
/// if a digest doesn't match during the computation, and it names the group, or the group shares.
///
/// The caller makes sure that the set is of the plan (`is_of_plan`), and that the plan has the name (`Plan::has_name`).
///
/// ```rust
/// let mut set = ShareSet::new();
/// set.add(parse(
///     b"shadow pistol academic always adequate wildlife fancy gross oasis cylinder mustang \
///     wrist rescue view short owner flip making coding armed",
/// )?)?;
/// set.add(parse(
///     b"shadow pistol academic acid actress prayer class unknown daughter sweater depict flip \
///     twice unkind craft early superior advocate guest smoking",
/// )?)?;
/// let plan = Plan::parse("2of3")?;
/// assert!(rt; is_of_plan(&set, &plan));
/// assert!(rt; plan.has_name(0, 1));
/// let share = reissue(&plan, &set, 0, 1)?;
/// assert!(rt; print(&share).starts_with(b"shadow pistol academic agency acid license obtain "));
/// ```
pub fn reissue(plan: &Plan, set: &ShareSet, group: u8, member: u8) -> Result<Share, ReissueError>
    requires of_plan { AreOfPlan plan.now.group_threshold plan.now.groups.items set.now }
    requires name { IsNameOfPlan plan.now.groups.items (group, member) }
    ensures reissue { IsReissue set.now plan.now.group_threshold plan.now.groups.items
        (group, member) result }
    // Of shares of a created backup of this plan: the share of this backup, or that it isn't determined.
    ensures created { (passphrase secret : List ℕ) (backup : AreOfBackup set.now passphrase secret)
        → backup.group_threshold ≡ plan.now.group_threshold → backup.groups ≡ plan.now.groups.items
        → IsRightFor backup.shares (group, member) result }
{
    are_a_share_set(set);
    backups_reissue_their_shares();
    share_of_name(plan, set, group, member)
}

/// The share of a name of a plan, as `reissue` gives it.
fn share_of_name(plan: &Plan, set: &ShareSet, group: u8, member: u8) -> Result<Share, ReissueError>
    requires { IsNameOfPlan plan.now.groups.items (group, member) }
    ensures { IsReissue set.now plan.now.group_threshold plan.now.groups.items
        (group, member) result }
{
    are_a_share_set(set);
    match share_at(set, group, member) {
        Some(share) => {
            let name = (group, member);
            Ok(like(
                share,
                name,
                share.member_threshold(),
                share.value().as_slice(),
            ))
        }
        None => missing_share(plan, set, group, member),
    }
}

/// The share of a name of a plan that the set doesn't have.
fn missing_share(plan: &Plan, set: &ShareSet, group: u8, member: u8) -> Result<Share, ReissueError>
    requires { IsNameOfPlan plan.now.groups.items (group, member) }
    ensures { option_map
        (missing_share set.now plan.now.group_threshold plan.now.groups.items (group, member))
        (slice_get plan.now.groups.items group) ≡ Some result }
{
    are_a_share_set(set);
    let members = members_of(plan, group, member);
    let value = missing_value(plan, set, (group, members), member)?;
    Ok(like(
        any_share(set),
        (group, member),
        members.threshold,
        value.as_slice(),
    ))
}

/// The members of the group of a name of a plan.
fn members_of(plan: &Plan, group: u8, member: u8) -> Members
    requires { IsNameOfPlan plan.now.groups.items (group, member) }
    ensures members { slice_get plan.now.groups.items group ≡ Some result }
    ensures is_group { IsGroup result }
    ensures low { group < most_groups }
    ensures low_member { member < most_members }
{
    match plan.groups.get(usize::from(group)) {
        Some(members) => *members,
        None => unreachable!(),
    }
}

/// A share like this one, with another name, member threshold and value.
fn like(share: &Share, name: (u8, u8), threshold: u8, value: &[u8]) -> Share
    requires group { name.0 < most_groups }
    requires member { name.1 < most_members }
    requires positive { 1 ≤ threshold }
    requires few { threshold ≤ most_members }
    requires length { length value.now ≡ array_vec_len share.now.value }
    ensures { result ≡ share_like share.now name threshold value.now }
{
    let fields = share.fields();
    let fields = ShareFields {
        id: fields.id,
        extendable: fields.extendable,
        exponent: fields.exponent,
        group_index: name.0,
        group_threshold: fields.group_threshold,
        group_count: fields.group_count,
        member_index: name.1,
        member_threshold: threshold,
        value: Bytes::try_from(value).unwrap(),
    };
    Share::new(fields).unwrap()
}

/// The value of a member that isn't at hand.
fn missing_value(
    plan: &Plan,
    set: &ShareSet,
    group: (u8, Members),
    member: u8,
) -> Result<Bytes, ReissueError>
    requires { IsGroup group.1 }
    ensures { missing_value set.now plan.now.group_threshold plan.now.groups.items
        (group.0, member) group.1 ≡ in_bytes result }
{
    are_a_share_set(set);
    let points = least_members(set, group);
    let at_hand = points.len();
    let needed = usize::from(group.1.threshold);
    if at_hand == needed {
        return value_at(&points, group.0, member);
    }
    value_from_others(plan, set, group, member, at_hand)
}

/// The value of a member of a group of which too few members are at hand: `at_hand` of them.
fn value_from_others(
    plan: &Plan,
    set: &ShareSet,
    group: (u8, Members),
    member: u8,
    at_hand: usize,
) -> Result<Bytes, ReissueError>
    requires group { IsGroup group.1 }
    requires at_hand { at_hand ≡ length (members_at_hand set.now group.0) }
    requires few { at_hand < group.1.threshold }
    ensures { missing_value set.now plan.now.group_threshold plan.now.groups.items
        (group.0, member) group.1 ≡ in_bytes result }
{
    let groups = plan.groups.as_slice();
    let others = other_groups(set, groups, group.0);
    let all = others.as_slice();
    let count = all.len();
    let required = usize::from(plan.group_threshold);
    let with_share = at_hand + 1;
    let needed = usize::from(group.1.threshold);
    let too_few = ReissueError::Undetermined(TooFew {
        group: group.0,
        member,
        members: at_hand as u8,
        threshold: group.1.threshold,
        others: count as u8,
        required: plan.group_threshold,
    });
    if with_share < needed {
        return Err(too_few);
    }
    if count < required {
        return Err(too_few);
    }
    value_by_others(set, &all[..required], group, member)
}

/// The value of a member of a group that is one member short, if other groups give the group's share.
fn value_by_others(
    set: &ShareSet,
    others: &[(u8, Members)],
    group: (u8, Members),
    member: u8,
) -> Result<Bytes, ReissueError>
    requires some { 0 < length others.now }
    requires complete { AreComplete set.now others.now }
    requires group { IsGroup group.1 }
    requires one_short { length (members_at_hand set.now group.0) + 1 ≡ group.1.threshold }
    ensures { and_then (value_at group.0 member) (points_by_others set.now others.now group.0)
        ≡ in_bytes result }
{
    are_a_share_set(set);
    match group_share(set, others, group.0) {
        Ok(share) => value_by(set, group, &share, member),
        Err(mismatch) => Err(ReissueError::DigestMismatch(mismatch)),
    }
}

/// The value of a member of a group that is one member short and has this share.
fn value_by(
    set: &ShareSet,
    group: (u8, Members),
    share: &Bytes,
    member: u8,
) -> Result<Bytes, ReissueError>
    requires group { IsGroup group.1 }
    requires one_short { length (members_at_hand set.now group.0) + 1 ≡ group.1.threshold }
    requires length { array_vec_len share.now ≡ value_bytes_of set.now }
    requires long { shortest_secret ≤ array_vec_len share.now }
    ensures { value_at group.0 member
        ((secret_place, share.now.items) ∷ members_at_hand set.now group.0) ≡ in_bytes result }
{
    are_a_share_set(set);
    let mut points = Points::new();
    points.push(SECRET_PLACE, share);
    push_least(&mut points, set, group.0, group.1.threshold);
    value_at(&points, group.0, member)
}

/// The value of a member at which points of its group are completed.
fn value_at(points: &Points<'_>, group: u8, member: u8) -> Result<Bytes, ReissueError>
    requires { (bytes : ℕ) × ArePointsOfOneLevel bytes points.now }
    ensures { value_at group member points.now ≡ in_bytes result }
{
    match complete_all(points, member) {
        Ok(value) => Ok(value),
        Err(DigestMismatch) => Err(ReissueError::DigestMismatch(Mismatch::InGroup { group })),
    }
}

/// The share of a group that other groups give, as many as are needed.
fn group_share(set: &ShareSet, others: &[(u8, Members)], group: u8) -> Result<Bytes, Mismatch>
    requires some { 0 < length others.now }
    requires complete { AreComplete set.now others.now }
    ensures { share_by_others set.now others.now group ≡ in_bytes result }
{
    are_a_share_set(set);
    let shares = combine_each(set, others)?;
    match complete_all(&lend(&shares), group) {
        Ok(share) => Ok(share),
        Err(DigestMismatch) => Err(Mismatch::OfGroups),
    }
}

/// The group shares to which the least members of each of these groups combine, or the first group that is refused.
fn combine_each(set: &ShareSet, groups: &[(u8, Members)]) -> Result<GroupShares, Mismatch>
    requires { AreComplete set.now groups.now }
    ensures { each (least_share set.now) groups.now ≡ in_pairs result }
{
    let mut shares = GroupShares::new();
    for group in groups {
        let Ok(share) = combine_least(set, *group) else {
            return Err(Mismatch::InGroup { group: group.0 });
        };
        shares.push(Some((group.0, share)));
    }
    Ok(shares)
}

/// What the least members of a group combine to.
fn combine_least(set: &ShareSet, group: (u8, Members)) -> Result<Bytes, DigestMismatch>
    requires group { IsGroup group.1 }
    requires at_hand { group.1.threshold ≤ length (members_at_hand set.now group.0) }
    ensures { option_map (λ share. share.items) (result_ok result)
        ≡ combined (least_members set.now group) }
{
    are_a_share_set(set);
    combine_all(&least_members(set, group))
}

/// What points give at an index, if there are exactly as many as their threshold.
fn complete_all(points: &Points<'_>, index: u8) -> Result<Bytes, DigestMismatch>
    requires { (bytes : ℕ) × ArePointsOfOneLevel bytes points.now }
    ensures { option_map (λ share. share.items) (result_ok result) ≡ completed points.now index }
{
    complete(points.len() as u8, points.as_slice(), index)
}
