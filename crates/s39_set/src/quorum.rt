//! Quorums: the minimal sets of names that meet the thresholds.
ghost use Rattle.std.specs.Prelude.{◌≡◌, ℕ, ◌+◌, ◌-◌, ◌*◌, ◌<◌, ◌≤◌, ◌↔◌, ◌++◌, [], ◌∷◌, length, map, All, Contains, Some, IsTrue, slice_index};
ghost use Rattle.std.specs.declared.cmp.Ordering.TheVariants.{Less};
ghost use Rattle.s39_set.specs.Names.{Names, most_groups, most_members, most_names, name_cmp, names_in_group};
ghost use Rattle.s39_set.specs.Looks.{most_test_looks, test_looks};
ghost use Rattle.s39_set.specs.ShareSet.{IsShareSet, name_of};
ghost use Rattle.s39_set.specs.Quorums.{member_threshold_of, IsQuorum, HasJustTheMembers};

use crate::limits::{GROUPS, MAX_GROUPS, MAX_NAMES};
use crate::looks::{Looks, has};
use crate::share_set::{ShareSet, are_a_share_set};
use arrayvec::ArrayVec;
use std::marker::Model;

/// A list of at most `MAX_NAMES` names of shares, each a group and a member index, in ascending order.
///
/// Whether it is a quorum depends on a set (`is_quorum`).
#[derive(Debug, Drop)]
pub struct Quorum {
    pairs: ArrayVec<(u8, u8), MAX_NAMES>,
}

impl Model for Quorum {
    ghost use Rattle.std.specs.Prelude.{ℕ, List};
    ghost use Rattle.s39_set.specs.Names.{AreNames, Names};

    ghost Value = { Names };

    ghost view = { λ quorum. quorum.pairs.items };

    ghost inverse = { λ names. record { pairs = record { items = names } } };

    ghost invariant = { λ quorum. AreNames quorum.pairs.items };
}

impl Quorum {
    ghost use Rattle.s39_set.specs.Names.{AreNames, Names};

    /// No names.
    pub(crate) fn new() -> Quorum
        ensures { result ≡ [] }
    {
        Quorum {
            pairs: ArrayVec::new(),
        }
    }

    /// The names, at most `MAX_NAMES`, each a group and a member index from 0 to 15, in ascending order.
    pub fn pairs(&self) -> &[(u8, u8)]
        ensures same { result.now ≡ self.now }
        ensures names { AreNames self.now }
        ensures short { length self.now ≤ most_names }
    {
        self.pairs.as_slice()
    }

    /// Whether all names come before this one.
    pub(crate) fn is_before(&self, group: u8, member: u8) -> bool
        ensures { IsTrue result ↔ All (λ name. name_cmp name (group, member) ≡ Less) self.now }
    {
        match self.pairs.last() {
            None => true,
            Some(last) => is_earlier(*last, group, member),
        }
    }

    /// Appends a name.
    pub(crate) fn push(&mut self, group: u8, member: u8)
        requires group { group < most_groups }
        requires member { member < most_members }
        requires later { All (λ name. name_cmp name (group, member) ≡ Less) self.old }
        ensures { self.new ≡ self.old ++ (group, member) ∷ [] }
    {
        self.pairs.push((group, member));
    }
}

/// Whether one name comes before another.
fn is_earlier(name: (u8, u8), group: u8, member: u8) -> bool
    ensures { IsTrue result ↔ (name_cmp name (group, member) ≡ Less) }
{
    name.0 < group || name.0 == group && name.1 < member
}

/// Whether a list of names is a quorum of a set: all are names of its shares, they meet the thresholds, and no
/// proper subset of them does.
///
/// Whatever it answers, it adds three looks (`Looks`) for each name of the list, and one for each of the 16 possible
/// groups. These are at most `MAX_TEST_LOOKS`. The caller keeps their count at most `u64::MAX - MAX_TEST_LOOKS`.
///
/// ```rust
/// // The set has members 0 and 2 of group 0, of which two are needed.
/// let mut looks = Looks::new();
/// assert!(rt; is_quorum(&set, &parse_quorum(b"0.0+0.2")?, &mut looks));
/// assert!(rt; !is_quorum(&set, &parse_quorum(b"0.0")?, &mut looks));
/// ```
pub fn is_quorum(set: &ShareSet, quorum: &Quorum, looks: &mut Looks) -> bool
    requires { looks.old ≤ u64.MAX - most_test_looks }
    ensures quorum { IsTrue result ↔ IsQuorum set.now quorum.now }
    ensures is_set { IsTrue result → IsShareSet set.now }
    ensures looks { looks.new ≡ looks.old + test_looks quorum.now }
    ensures at_most { looks.new ≤ looks.old + most_test_looks }
{
    are_a_share_set(set);
    let names = quorum.pairs();
    let at_hand = are_at_hand(set, names, looks);
    let just = has_just_the_members(set, names, looks);
    at_hand && just
}

/// Whether the set has shares of all these names.
fn are_at_hand(set: &ShareSet, names: &[(u8, u8)], looks: &mut Looks) -> bool
    requires { looks.old + 2 * length names.now ≤ u64.MAX }
    ensures at_hand { IsTrue result ↔ All (Contains (map name_of set.now)) names.now }
    ensures looks { looks.new ≡ looks.old + 2 * length names.now }
{
    let mut all = true;
    for (group, member) in names {
        looks.turn();
        if !has(set, *group, *member, looks) {
            all = false;
        }
    }
    all
}

/// Whether the names are of exactly as many groups as the group threshold, and of each of these groups there are exactly
/// as many names as its member threshold.
fn has_just_the_members(set: &ShareSet, names: &[(u8, u8)], looks: &mut Looks) -> bool
    requires groups { All (λ name. name.0 < most_groups) names.now }
    requires short { length names.now ≤ most_names }
    requires looks { looks.old + length names.now + most_groups ≤ u64.MAX }
    ensures just { IsTrue result ↔ HasJustTheMembers set.now names.now }
    ensures looks { looks.new ≡ looks.old + length names.now + most_groups }
{
    are_a_share_set(set);
    let required = set.group_threshold();
    let counts = members_of_groups(names, looks);
    let mut just = true;
    let mut groups = 0;
    for group in 0..MAX_GROUPS {
        looks.turn();
        let members = counts[usize::from(group)];
        if members > 0 {
            groups += 1;
            if !asks_for(set, group, members) {
                just = false;
            }
        }
    }
    just && required == Some(groups)
}

/// Whether the member threshold of a group is this number.
fn asks_for(set: &ShareSet, group: u8, members: u16) -> bool
    requires { group < most_groups }
    ensures { IsTrue result ↔ (member_threshold_of set.now group ≡ Some members) }
{
    match set.member_threshold(group) {
        Some(threshold) => u16::from(threshold) == members,
        None => false,
    }
}

/// How many of these names each of the groups 0 to 15 has.
pub(crate) fn members_of_groups(names: &[(u8, u8)], looks: &mut Looks) -> [u16; GROUPS]
    requires groups { All (λ name. name.0 < most_groups) names.now }
    requires short { length names.now ≤ most_names }
    requires looks { looks.old + length names.now ≤ u64.MAX }
    ensures counts { (group : ℕ) → group < most_groups
        → slice_index result group ≡ length (names_in_group group names.now) }
    ensures looks { looks.new ≡ looks.old + length names.now }
{
    let mut counts = [0; GROUPS];
    for (group, _) in names {
        looks.turn();
        counts[usize::from(*group)] += 1;
    }
    counts
}
