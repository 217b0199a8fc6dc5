//! What a set has of its groups, and whether that is enough.
ghost use Rattle.std.specs.Prelude.{◌≡◌, ◌<◌, map};
ghost use Rattle.s39_set.specs.Names.{most_groups, names_in_group};
ghost use Rattle.s39_set.specs.ShareSet.{name_of};
ghost use Rattle.s39_set.specs.Status.{status_of, group_status_of};

use crate::first_quorum::count_groups;
use crate::limits::MAX_MEMBERS;
use crate::looks::Looks;
use crate::next::{StepContext, push_members, shares_at_hand};
use crate::quorum::Quorum;
use crate::share_set::{ShareSet, are_a_share_set};

/// How many groups have enough members, and how many such groups are needed.
#[derive(Clone, Copy, Debug, PartialEq, Eq)]
pub struct Status {
    /// How many groups, 0 to 16, have at least their member threshold of shares.
    pub complete: u8,
    /// The group threshold, 1 to 16.
    pub required: u8,
}

impl Status {
    ghost use Rattle.s39_set.specs.Status.{is_enough};

    /// Returns whether there are enough complete groups, that is, whether the set has a quorum
    /// (`laws::enough_is_a_quorum`).
    pub fn is_enough(&self) -> bool
        ensures { result ≡ is_enough self.now }
    {
        self.required <= self.complete
    }
}

/// What a set has of a group.
#[derive(Debug, Drop)]
pub struct GroupStatus {
    /// The group, 0 to 15.
    pub group: u8,
    /// The group's member threshold, 1 to 16.
    pub threshold: u8,
    /// The names of the group's shares that are at hand, at least one.
    pub names: Quorum,
}

/// How many groups of a set have at least their member threshold of shares, and its group threshold. It is `None` if
/// the set is empty. A share that was added more than once counts once.
///
/// ```rust
/// // The set has members 0 and 2 of group 0, of which two are needed; one group is needed.
/// assert_eq!(rt; status_of(&set), Some(Status { complete: 1, required: 1 }));
/// ```
pub fn status_of(set: &ShareSet) -> Option<Status>
    ensures { result ≡ status_of set.now }
{
    are_a_share_set(set);
    let Some(required) = set.group_threshold() else {
        return None;
    };
    // The looks are told to nobody.
    let mut looks = Looks::new();
    let context = StepContext::of(set, &[], &mut looks);
    let complete = count_groups(&context.complete);
    Some(Status { complete, required })
}

/// What a set has of a group: its member threshold and the names of its shares, in order. It is `None` if the set has
/// no share of the group. The caller gives a group from 0 to 15.
///
/// ```rust
/// // The set has members 0 and 2 of group 0, of which two are needed.
/// assert_eq!(rt; group_status_of(&set, 0).map(|status| status.threshold), Some(2));
/// assert!(rt; group_status_of(&set, 1).is_none());
/// ```
pub fn group_status_of(set: &ShareSet, group: u8) -> Option<GroupStatus>
    requires { group < most_groups }
    ensures { result ≡ group_status_of set.now group }
{
    let Some(threshold) = set.member_threshold(group) else {
        return None;
    };
    let names = names_at_hand(set, group);
    Some(GroupStatus {
        group,
        threshold,
        names,
    })
}

/// The names of a group's shares that a set has.
fn names_at_hand(set: &ShareSet, group: u8) -> Quorum
    requires { group < most_groups }
    ensures { result ≡ names_in_group group (map name_of set.now) }
{
    are_a_share_set(set);
    let mut looks = Looks::new();
    let at_hand = shares_at_hand(set, &mut looks);
    let mut names = Quorum::new();
    push_members(&at_hand, group, 0, MAX_MEMBERS, &mut names, &mut looks);
    names
}
