//! The quorum that comes next.
ghost use Rattle.std.specs.Prelude.{◌≡◌, ◌+◌, ◌-◌, ◌*◌, ◌<◌, ◌≤◌, ◌++◌, Some, None, true, false, length, map, take, All, Contains, IsTrue};
ghost use Rattle.std.specs.Prelude.{OnOk, OnErr, IfOk, IfSome, Ok, nat_le};
ghost use Rattle.std.specs.Option.{option_map_or};
ghost use Rattle.std.specs.declared.cmp.Ordering.TheVariants.{Less};
ghost use Rattle.s39_set.specs.Causes.{no_quorum_cause};
ghost use Rattle.s39_set.specs.Names.{most_groups, most_members, most_names, name_cmp, AreNames};
ghost use Rattle.s39_set.specs.Looks.{most_step_looks, step_looks, context_looks, place_looks, completion_looks, later_members};
ghost use Rattle.s39_set.specs.ShareSet.{IsShareSet, name_of};
ghost use Rattle.s39_set.specs.Quorums.{IsQuorum, IsFirstQuorumAfter, HasNoQuorumAfter};
ghost use Rattle.s39_set.specs.Steps.{name_at, earlier_of_group, AreMasksOf, members_from, groups_from, groups_taken};
ghost use Rattle.s39_set.specs.Steps.{AreCompleteGroups, Knows};
ghost use Rattle.s39_set.specs.Steps.{HasSpareMember, AllAreChosen, HasSpareGroup, AllAreUsed, groups_used, IsReplacementFor, replacement_names};

use crate::limits::{GROUPS, MAX_GROUPS, MAX_MEMBERS, MAX_NAMES};
use crate::looks::{Looks, has};
use crate::masks::Masks;
use crate::quorum::{Quorum, is_quorum, members_of_groups};
use crate::share_set::{ShareSet, indices_at};
use s39_refusal::{Cause, code};

/// A list of names is no quorum of a set.
#[derive(Clone, Copy, Debug, PartialEq, Eq)]
pub struct NotAQuorum;

impl NotAQuorum {
    /// Returns the number of the refusal, 62.
    pub fn cause(&self) -> Cause
        ensures { result ≡ no_quorum_cause }
    {
        Cause::of(code::NOT_A_QUORUM)
    }
}

/// The first quorum of a set that comes after a given one. It is `None` if the given one is the last.
///
/// The error is returned if the given list isn't a quorum of the set.
///
/// The call adds at most `MAX_STEP_LOOKS` looks, and the caller keeps their count at most `u64::MAX - MAX_STEP_LOOKS`.
/// How many it adds follows from the given names and the answer alone:
///
/// - It adds the looks of `is_quorum`, and after an error no others.
/// - It adds two for each name that a share may have, 17 for each group and two for each name of the quorum.
/// - It tries the names of the quorum backwards, from the last one to the first position at which the answer has
///   another name, or to the first name if there is no answer. For each name that it tries it adds one, and one more
///   for each member and each group above it.
/// - If there is a next quorum, it also adds, for the last name that it tried: one for each name before that name, two
///   for each member above it, and 18 for each group above it.
///
/// ```rust
/// // The set has members 0 and 2 of group 0, of which two are needed: these are its one quorum.
/// let mut looks = Looks::new();
/// assert!(rt; next_after(&set, &first(&set)?, &mut looks)?.is_none());
/// ```
pub fn next_after(
    set: &ShareSet,
    quorum: &Quorum,
    looks: &mut Looks,
) -> Result<Option<Quorum>, NotAQuorum>
    requires { looks.old ≤ u64.MAX - most_step_looks }
    ensures quorum { OnOk result (IsQuorum set.now quorum.now) }
    ensures not_a_quorum { OnErr result (¬ IsQuorum set.now quorum.now) }
    ensures next { IfOk result (λ next.
        IfSome next (IsFirstQuorumAfter set.now (Some quorum.now))) }
    ensures last { result ≡ Ok None → HasNoQuorumAfter set.now (Some quorum.now) }
    ensures looks { looks.new ≡ looks.old + step_looks quorum.now result }
    ensures at_most { looks.new ≤ looks.old + most_step_looks }
{
    if !is_quorum(set, quorum, looks) {
        return Err(NotAQuorum);
    }
    let names = quorum.pairs();
    let context = StepContext::of(set, names, looks);
    for position in (0..names.len()).rev() {
        looks.turn();
        if let Some(replacement) = context.replacement(names, position, looks) {
            return Ok(Some(context.completed(set, names, position, replacement, looks)));
        }
    }
    Ok(None)
}

/// What a step knows of a set and a quorum of it.
#[derive(Drop)]
pub(crate) struct StepContext {
    /// The names of the set's shares.
    pub(crate) at_hand: Masks,
    /// The names of the quorum.
    pub(crate) chosen: Masks,
    /// Which groups have at least their member threshold of shares.
    pub(crate) complete: [bool; GROUPS],
    /// How many names of the quorum each group has.
    pub(crate) members: [u16; GROUPS],
}

/// Where the names come from that can stand in the place of a name and of all behind it.
#[derive(Clone, Copy)]
pub(crate) enum Replacement {
    /// Its own group, with a greater member in its place.
    Group,
    /// Later groups alone.
    LaterGroups,
}

/// Whether a member of a group above this one is at hand and not chosen.
fn has_spare_member(
    at_hand: &Masks,
    chosen: &Masks,
    group: u8,
    member: u8,
    looks: &mut Looks,
) -> bool
    requires group { group < most_groups }
    requires member { member < most_members }
    requires looks { looks.old + later_members (group, member) ≤ u64.MAX }
    ensures spare { IsTrue result → HasSpareMember at_hand.now chosen.now (group, member) }
    ensures all { result ≡ false → AllAreChosen at_hand.now chosen.now (group, member) }
    ensures looks { looks.new ≡ looks.old + later_members (group, member) }
{
    let mut spare = false;
    for other in member + 1..MAX_MEMBERS {
        looks.turn();
        if at_hand.has(group, other) && !chosen.has(group, other) {
            spare = true;
        }
    }
    spare
}

/// Whether a group above this one is complete and has no chosen name.
fn has_spare_group(
    complete: &[bool; GROUPS],
    members: &[u16; GROUPS],
    group: u8,
    looks: &mut Looks,
) -> bool
    requires group { group < most_groups }
    requires looks { looks.old + (most_groups - (group + 1)) ≤ u64.MAX }
    ensures spare { IsTrue result → HasSpareGroup complete.now members.now group }
    ensures all { result ≡ false → AllAreUsed complete.now members.now group }
    ensures looks { looks.new ≡ looks.old + (most_groups - (group + 1)) }
{
    let mut spare = false;
    for other in group + 1..MAX_GROUPS {
        looks.turn();
        if complete[usize::from(other)] && members[usize::from(other)] == 0 {
            spare = true;
        }
    }
    spare
}

/// How many groups above this one have chosen names.
#[tactic(auto, using(crate::proofs::RangesFrom::count_from_yes, crate::proofs::RangesFrom::count_from_no))]
fn groups_above(members: &[u16; GROUPS], group: u8, looks: &mut Looks) -> u8
    requires group { group < most_groups }
    requires looks { looks.old + (most_groups - (group + 1)) ≤ u64.MAX }
    ensures groups { result ≡ groups_used members.now group }
    ensures few { result ≤ most_groups }
    ensures looks { looks.new ≡ looks.old + (most_groups - (group + 1)) }
{
    let mut groups = 0;
    for later in group + 1..MAX_GROUPS {
        looks.turn();
        if members[usize::from(later)] > 0 {
            groups += 1;
        }
    }
    groups
}

/// How many members of a group, from one on, are in the masks.
#[tactic(auto, using(crate::proofs::RangesFrom::count_from_yes, crate::proofs::RangesFrom::count_from_no))]
fn count_members(masks: &Masks, group: u8, from: u8, looks: &mut Looks) -> u8
    requires group { group < most_groups }
    requires from { from ≤ most_members }
    requires looks { looks.old + (most_members - from) ≤ u64.MAX }
    ensures members { result ≡ length (members_from masks.now group from) }
    ensures few { result ≤ most_members }
    ensures looks { looks.new ≡ looks.old + (most_members - from) }
{
    let mut members = 0;
    for other in from..MAX_MEMBERS {
        looks.turn();
        if masks.has(group, other) {
            members += 1;
        }
    }
    members
}

impl StepContext {
    pub(crate) fn of(set: &ShareSet, names: &[(u8, u8)], looks: &mut Looks) -> StepContext
        requires names { AreNames names.now }
        requires short { length names.now ≤ most_names }
        requires is_set { IsShareSet set.now }
        requires looks { looks.old + context_looks names.now ≤ u64.MAX }
        ensures knows { Knows set.now names.now result }
        ensures looks { looks.new ≡ looks.old + context_looks names.now }
    {
        let at_hand = shares_at_hand(set, looks);
        StepContext {
            at_hand,
            chosen: masks_of(names, looks),
            complete: groups_complete(set, &at_hand, looks),
            members: members_of_groups(names, looks),
        }
    }

    /// Whether a greater name can stand at a position, and then where it and the names behind it come from.
    fn replacement(
        &self,
        names: &[(u8, u8)],
        position: usize,
        looks: &mut Looks,
    ) -> Option<Replacement>
        requires names { AreNames names.now }
        requires position { position < length names.now }
        requires looks { looks.old + place_looks (name_at names.now position) ≤ u64.MAX }
        ensures replacement { IsReplacementFor self.now (take position names.now) (name_at names.now position)
            result }
        ensures looks { looks.new + 1 ≡ looks.old + place_looks (name_at names.now position) }
    {
        let (group, member) = names[position];
        let spare_member = has_spare_member(&self.at_hand, &self.chosen, group, member, looks);
        let spare_group = has_spare_group(&self.complete, &self.members, group, looks);
        if spare_member {
            Some(Replacement::Group)
        } else if spare_group && is_first_of_group(names, position) {
            Some(Replacement::LaterGroups)
        } else {
            None
        }
    }

    /// The names before a position, and the least that can stand there and behind it.
    #[tactic(auto, using(crate::proofs::Fronts::front_before_next, crate::proofs::Fronts::with_members_groups))]
    fn completed(
        &self,
        set: &ShareSet,
        names: &[(u8, u8)],
        position: usize,
        replacement: Replacement,
        looks: &mut Looks,
    ) -> Quorum
        requires names { AreNames names.now }
        requires short { length names.now ≤ most_names }
        requires position { position < length names.now }
        requires looks { looks.old + completion_looks position (name_at names.now position) ≤ u64.MAX }
        ensures names { result
            ≡ take position names.now
            ++ replacement_names set.now self.now (name_at names.now position) replacement }
        ensures looks { looks.new
            ≡ looks.old + completion_looks position (name_at names.now position) }
    {
        let (group, member) = names[position];
        let mut next = copied(&names[..position], looks);
        let chosen = count_members(&self.chosen, group, member + 1, looks);
        let groups = groups_above(&self.members, group, looks);
        let (members, groups) = match replacement {
            Replacement::Group => (chosen + 1, groups),
            Replacement::LaterGroups => (0, groups + 1),
        };
        push_members(&self.at_hand, group, member + 1, members, &mut next, looks);
        self.push_groups(set, group + 1, groups, &mut next, looks);
        next
    }

    /// Appends the first members of the first complete groups, from one group on: as many groups as wanted, and as many
    /// members of each as its member threshold requires.
    pub(crate) fn push_groups(
        &self,
        set: &ShareSet,
        from: u8,
        wanted: u8,
        quorum: &mut Quorum,
        looks: &mut Looks,
    )
        requires from { from ≤ most_groups }
        requires earlier { All (λ name. name.0 < from) quorum.old }
        requires looks { looks.old + (1 + most_members) * (most_groups - from) ≤ u64.MAX }
        ensures names { quorum.new ≡ quorum.old ++ groups_taken set.now self.now from wanted }
        ensures looks { looks.new ≡ looks.old + (1 + most_members) * (most_groups - from) }
    {
        let mut groups = 0;
        for group in from..MAX_GROUPS {
            looks.turn();
            let mut members = 0;
            if groups < wanted && self.complete[usize::from(group)] {
                members = set.member_threshold(group).unwrap_or(0);
                groups += 1;
            }
            push_members(&self.at_hand, group, 0, members, quorum, looks);
        }
    }
}

/// Which shares a set has.
pub(crate) fn shares_at_hand(set: &ShareSet, looks: &mut Looks) -> Masks
    requires looks { looks.old + 2 * most_names ≤ u64.MAX }
    ensures names { AreMasksOf result (map name_of set.now) }
    ensures looks { looks.new ≡ looks.old + 2 * most_names }
{
    let mut at_hand = Masks::new();
    for slot in 0..MAX_NAMES {
        looks.turn();
        let (group, member) = indices_at(slot);
        at_hand.flags[slot] = has(set, group, member, looks);
    }
    at_hand
}

/// These names as masks.
fn masks_of(names: &[(u8, u8)], looks: &mut Looks) -> Masks
    requires names { AreNames names.now }
    requires looks { looks.old + length names.now ≤ u64.MAX }
    ensures names { AreMasksOf result names.now }
    ensures looks { looks.new ≡ looks.old + length names.now }
{
    let mut masks = Masks::new();
    for (group, member) in names {
        looks.turn();
        masks.insert(*group, *member);
    }
    masks
}

/// Which groups have at least their member threshold of shares.
fn groups_complete(set: &ShareSet, at_hand: &Masks, looks: &mut Looks) -> [bool; GROUPS]
    requires at_hand { AreMasksOf at_hand.now (map name_of set.now) }
    requires is_set { IsShareSet set.now }
    requires looks { looks.old + most_groups * (1 + most_members) ≤ u64.MAX }
    ensures complete { AreCompleteGroups result set.now }
    ensures looks { looks.new ≡ looks.old + most_groups * (1 + most_members) }
{
    let mut complete = [false; GROUPS];
    for group in 0..MAX_GROUPS {
        looks.turn();
        let members = count_members(at_hand, group, 0, looks);
        complete[usize::from(group)] = meets(set.member_threshold(group), members);
    }
    complete
}

/// Whether this many members meet a member threshold. They don't if there is none.
fn meets(threshold: Option<u8>, members: u8) -> bool
    ensures { result ≡ option_map_or (λ threshold. nat_le threshold members) threshold false }
{
    match threshold {
        Some(threshold) => threshold <= members,
        None => false,
    }
}

/// Whether the name before a position, if there is one, is of another group.
#[tactic(auto, using(crate::proofs::Fronts::none_of_group, crate::proofs::Fronts::apart_from_test))]
fn is_first_of_group(names: &[(u8, u8)], position: usize) -> bool
    requires names { AreNames names.now }
    requires position { position < length names.now }
    ensures first { IsTrue result → earlier_of_group names.now position ≡ 0 }
    ensures other { result ≡ false → 0 < earlier_of_group names.now position }
{
    position == 0 || names[position - 1].0 != names[position].0
}

/// A list of these names.
#[tactic(auto, using(crate::proofs::Fronts::front_before))]
fn copied(names: &[(u8, u8)], looks: &mut Looks) -> Quorum
    requires names { AreNames names.now }
    requires looks { looks.old + length names.now ≤ u64.MAX }
    ensures names { result ≡ names.now }
    ensures looks { looks.new ≡ looks.old + length names.now }
{
    let mut quorum = Quorum::new();
    for (group, member) in names {
        looks.turn();
        quorum.push(*group, *member);
    }
    quorum
}

/// Appends the first members in the masks of a group from one on, as many as wanted.
pub(crate) fn push_members(
    masks: &Masks,
    group: u8,
    from: u8,
    wanted: u8,
    quorum: &mut Quorum,
    looks: &mut Looks,
)
    requires group { group < most_groups }
    requires from { from ≤ most_members }
    requires earlier { All (λ name. name_cmp name (group, from) ≡ Less) quorum.old }
    requires looks { looks.old + (most_members - from) ≤ u64.MAX }
    ensures names { quorum.new ≡ quorum.old ++ take wanted (members_from masks.now group from) }
    ensures looks { looks.new ≡ looks.old + (most_members - from) }
{
    let mut members = 0;
    for member in from..MAX_MEMBERS {
        looks.turn();
        if members < wanted && masks.has(group, member) {
            quorum.push(group, member);
            members += 1;
        }
    }
}
