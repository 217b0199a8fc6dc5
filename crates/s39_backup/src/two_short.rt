//! Names that are two short of the thresholds of a plan.
ghost use Rattle.std.specs.Prelude.{◌≡◌, ℕ, ◌-◌, ◌<◌, ◌≤◌, ◌↔◌, List, length, map, All, AllPairs, IsTrue};
ghost use Rattle.s39_set.specs.Names.{most_groups, most_members, names_in_group, AreNames};
ghost use Rattle.s39_backup.specs.TwoShort.{is_held, held_groups, IsTwoShort};

use crate::plan::{Members, Plan};
use arrayvec::ArrayVec;
use s39_split::MAX_SHARES;

/// Indices of shares of one level.
pub(crate) type Indices = ArrayVec<u8, MAX_SHARES>;

/// Whether names are two short of a plan's thresholds: they are names of its shares, and the groups that they hold are
/// at most the group threshold less two, or none if that is 1.
pub(crate) fn are_two_short(plan: &Plan, names: &[(u8, u8)]) -> bool
    ensures { IsTrue result ↔ IsTwoShort plan.now.group_threshold plan.now.groups.items names.now }
{
    let groups = plan.groups.as_slice();
    let held = held_groups(groups, names);
    let are_of_plan = names.iter().all(|name| plan.has_name(name.0, name.1));
    are_of_plan && held.len() + 2 <= usize::from(plan.group_threshold).max(2)
}

/// The indices of the groups that names hold, in order.
pub(crate) fn held_groups(groups: &[Members], names: &[(u8, u8)]) -> Indices
    requires { length groups.now ≤ most_groups }
    ensures { result.items ≡ held_groups names.now groups.now }
{
    let mut held = Indices::new();
    for (group, members) in groups.iter().enumerate() {
        if is_held(names, group as u8, *members) {
            held.push(group as u8);
        }
    }
    held
}

/// Whether names hold a group: they have at least one name of it, and more than its member threshold less two.
pub(crate) fn is_held(names: &[(u8, u8)], group: u8, members: Members) -> bool
    ensures { result ≡ is_held names.now (group, members) }
{
    usize::from(members.threshold).saturating_sub(2) < count_in_group(names, group)
}

/// How many of the names are of a group.
fn count_in_group(names: &[(u8, u8)], group: u8) -> usize
    ensures { result ≡ length (names_in_group group names.now) }
{
    let mut count = 0;
    for (of, _) in names {
        if *of == group {
            count += 1;
        }
    }
    count
}

/// The indices of the members of a group among names, in order.
pub(crate) fn members_among(names: &[(u8, u8)], group: u8) -> Indices
    requires { length (names_in_group group names.now) ≤ most_members }
    ensures { result.items ≡ map (λ name. name.1) (names_in_group group names.now) }
{
    let mut members = Indices::new();
    for (of, member) in names {
        if *of == group {
            members.push(*member);
        }
    }
    members
}
