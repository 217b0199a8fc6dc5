//! What a set has of the groups of a plan.
ghost use Rattle.std.specs.Prelude.{◌≡◌, ◌≢◌, ◌↔◌, ◌-◌, ◌/◌, ◌%◌, ◌<◌, ◌≤◌, ◌==◌, ◌&&◌, not, ℕ, [], ◌∷◌, ◌++◌, Some, None, length, take, find, All, Contains, IsTrue};
ghost use Rattle.std.specs.Option.{option_copied};
ghost use Rattle.s39_split.specs.Sharing.{most_shares};
ghost use Rattle.s39_words.specs.declared.share.ShareFields.{ShareFields};
ghost use Rattle.s39_set.specs.Names.{most_groups, most_members, most_names};
ghost use Rattle.s39_set.specs.ShareSet.{has_name};
ghost use Rattle.s39_backup.specs.Plan.{IsGroup};
ghost use Rattle.s39_backup.specs.Reissue.{IsOfPlan, AreOfPlan, members_at_hand, least_members, is_at_hand, other_groups};

use crate::plan::{Members, Plan};
use arrayvec::ArrayVec;
use s39_set::{GROUPS, MAX_MEMBERS, MAX_NAMES, ShareSet, are_a_share_set, share_at};
use s39_split::Points;
use s39_words::Share;

/// Groups of a plan, each with its index.
pub(crate) type Groups = ArrayVec<(u8, Members), GROUPS>;

/// Returns whether a backup of this plan can have all shares of a set: their group threshold and their number of groups
/// are the plan's, and the plan has their names with their member thresholds. The answer for an empty set is `true`.
///
/// ```rust
/// let mut set = ShareSet::new();
/// set.add(parse(
///     b"shadow pistol academic always adequate wildlife fancy gross oasis cylinder mustang \
///     wrist rescue view short owner flip making coding armed",
/// )?)?;
/// assert!(rt; is_of_plan(&set, &Plan::parse("2of3")?));
/// assert!(rt; !is_of_plan(&set, &Plan::parse("3of3")?));
/// ```
pub fn is_of_plan(set: &ShareSet, plan: &Plan) -> bool
    ensures { IsTrue result ↔ AreOfPlan plan.now.group_threshold plan.now.groups.items set.now }
{
    are_a_share_set(set);
    for place in 0..MAX_NAMES {
        if let Some(share) = at_place(set, place) {
            if !may_have(plan, share) {
                return false;
            }
        }
    }
    true
}

/// Whether a backup of a plan can have this share.
fn may_have(plan: &Plan, share: &Share) -> bool
    ensures { IsTrue result ↔ IsOfPlan plan.now.group_threshold plan.now.groups.items share.now }
{
    match plan.groups.get(usize::from(share.group_index())) {
        Some(members) => {
            share.group_threshold() == plan.group_threshold
                && usize::from(share.group_count()) == plan.groups.len()
                && share.member_index() < members.count
                && share.member_threshold() == members.threshold
        }
        None => false,
    }
}

/// A share of a set that isn't empty.
pub(crate) fn any_share(set: &ShareSet) -> &Share
    requires { set.now ≢ [] }
    ensures { Contains set.now result.now }
{
    are_a_share_set(set);
    for place in 0..MAX_NAMES {
        if let Some(share) = at_place(set, place) {
            return share;
        }
    }
    unreachable!()
}

/// The share of a set whose name stands at this place among all names in order.
fn at_place(set: &ShareSet, place: usize) -> Option<&Share>
    requires { place < most_names }
    ensures { option_copied result
        ≡ find (has_name (place / most_members) (place % most_members)) set.now }
{
    let members = usize::from(MAX_MEMBERS);
    share_at(set, (place / members) as u8, (place % members) as u8)
}

/// Adds the least members of a group that are at hand, until there are as many points as the threshold.
pub(crate) fn push_least<'a>(points: &mut Points<'a>, set: &'a ShareSet, group: u8, threshold: u8)
    requires { threshold ≤ most_shares }
    ensures { points.new
        ≡ points.old ++ take (threshold - length points.old) (members_at_hand set.now group) }
{
    are_a_share_set(set);
    for member in 0..MAX_MEMBERS {
        add_found(points, share_at(set, group, member), threshold);
    }
}

/// Adds the point of a share, if there is one, unless there are as many points as the threshold.
fn add_found<'a>(points: &mut Points<'a>, share: Option<&'a Share>, threshold: u8)
    requires { threshold ≤ most_shares }
    ensures none { option_copied share.entry ≡ None → points.new ≡ points.old }
    ensures full { threshold ≤ length points.old → points.new ≡ points.old }
    ensures found { (found : ShareFields) → option_copied share.entry ≡ Some found
        → length points.old < threshold
        → points.new ≡ points.old ++ (found.member_index, found.value.items) ∷ [] }
{
    let Some(share) = share else {
        return;
    };
    if points.len() >= usize::from(threshold) {
        return;
    }
    points.push(share.member_index(), share.value());
}

/// The least members of a group that are at hand, as many as it needs, or all of them.
pub(crate) fn least_members(set: &ShareSet, group: (u8, Members)) -> Points<'_>
    requires { group.1.threshold ≤ most_shares }
    ensures { result ≡ least_members set.now group }
{
    let mut points = Points::new();
    push_least(&mut points, set, group.0, group.1.threshold);
    points
}

/// Whether at least as many members as a group needs are at hand.
fn is_at_hand(set: &ShareSet, group: (u8, Members)) -> bool
    requires { group.1.threshold ≤ most_shares }
    ensures { result ≡ is_at_hand set.now group }
{
    least_members(set, group).len() == usize::from(group.1.threshold)
}

/// The other groups of a plan of which at least as many members as they need are at hand, in order.
pub(crate) fn other_groups(set: &ShareSet, groups: &[Members], group: u8) -> Groups
    requires few { length groups.now ≤ most_groups }
    requires groups { All IsGroup groups.now }
    ensures { result.items ≡ other_groups set.now groups.now group }
{
    let mut others = Groups::new();
    for (place, members) in groups.iter().enumerate() {
        let other = (place as u8, *members);
        if is_other(set, other, group) {
            others.push(other);
        }
    }
    others
}

/// Whether a group is another than this one, and at least as many members as it needs are at hand.
fn is_other(set: &ShareSet, other: (u8, Members), group: u8) -> bool
    requires { other.1.threshold ≤ most_shares }
    ensures { result ≡ (not (other.0 == group) && is_at_hand set.now other) }
{
    other.0 != group && is_at_hand(set, other)
}
