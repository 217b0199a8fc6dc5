//! Share sets.
ghost use Rattle.std.specs.Prelude.{◌≡◌, ◌<◌, ◌≤◌, ◌↔◌, [], find, map, All, Contains, IsTrue, Some, None, Ok, OnOk, OnErr, IfErr, IfSome};
ghost use Rattle.std.specs.Option.{option_copied};
ghost use Rattle.s39_set.specs.Names.{most_groups, most_members, most_names};
ghost use Rattle.s39_set.specs.Slots.{slot_of, threshold_differs, value_differs, first_cause, IsBefore};
ghost use Rattle.s39_set.specs.Quorums.{group_threshold_of, member_threshold_of};
ghost use Rattle.s39_set.specs.ShareSet.{IsShareSet, HasOneMore, refusal_of, name_of, has_name};

use crate::limits::{GROUPS, MAX_GROUPS, MAX_MEMBERS, MAX_NAMES};
use crate::set_error::{Added, SetError};
use s39_words::Share;
use std::array;
use std::marker::Model;

/// The shares of one backup that are at hand, each once, in the order of their group and member indices.
///
/// A set has at most `MAX_NAMES` shares. It keeps a slot for each name that a share may have, and the thresholds, so that
/// no loop looks for these. It allocates nothing.
#[derive(Drop)]
pub struct ShareSet {
    group_threshold: Option<u8>,
    member_thresholds: [Option<u8>; GROUPS],
    slots: [Option<Share>; MAX_NAMES],
}

impl Model for ShareSet {
    ghost use Rattle.std.specs.Prelude.{List};
    ghost use Rattle.s39_words.specs.declared.share.ShareFields.{ShareFields};

    ghost Value = { List ShareFields };

    ghost use Rattle.s39_set.specs.Slots.{shares_at, IsKept};

    ghost view = { λ set. shares_at set.slots };

    ghost invariant = { λ set. IsKept set.group_threshold set.member_thresholds set.slots };
}

impl ShareSet {
    /// No shares.
    pub fn new() -> ShareSet
        ensures { result ≡ [] }
    {
        ShareSet {
            group_threshold: None,
            member_thresholds: [None; GROUPS],
            slots: array::from_fn(|_| None),
        }
    }

    /// Takes a share. The answer is `Added::New` if the set had no share of its name, and `Added::Repeat` if it had
    /// this very share. An empty set takes every share.
    ///
    /// The error is the first that applies, in the order of the variants of `SetError`. The set is unchanged unless
    /// the answer is `Added::New`.
    ///
    /// ```rust
    /// let mut set = ShareSet::new();
    /// assert_eq!(rt; set.add(parse(MEMBER_0)?), Ok(Added::New));
    /// assert_eq!(rt; set.add(parse(MEMBER_2)?), Ok(Added::New));
    /// assert_eq!(rt; set.add(parse(MEMBER_2)?), Ok(Added::Repeat));
    /// ```
    pub fn add(&mut self, share: Share) -> Result<Added, SetError>
        ensures refused { IfErr result (λ error. refusal_of self.old share ≡ Some error) }
        ensures accepted { OnOk result (refusal_of self.old share ≡ None) }
        ensures repeat { (result ≡ Ok Added.Repeat) ↔ Contains self.old share }
        ensures new { result ≡ Ok Added.New → HasOneMore self.old share self.new }
        ensures err { OnErr result (self.new ≡ self.old) }
        ensures repeat_unchanged { result ≡ Ok Added.Repeat → self.new ≡ self.old }
        ensures is_set { IsShareSet self.new }
    {
        if let Some(error) = self.refusal(&share) {
            return Err(error);
        }
        // `fields` tells a proof the ranges of the indices.
        let group = share.fields().group_index;
        let member = share.member_index();
        if self.is_at_hand(group, member) {
            return Ok(Added::Repeat);
        }
        self.group_threshold = Some(share.group_threshold());
        self.member_thresholds[usize::from(group)] = Some(share.member_threshold());
        self.slots[slot_of(group, member)] = Some(share);
        Ok(Added::New)
    }

    /// The first cause for which a share can't join.
    #[tactic(auto, using(crate::proofs::Refusals::refusal_by_one, crate::proofs::Slots::not_refused_by_none))]
    fn refusal(&self, share: &Share) -> Option<SetError>
        ensures { result ≡ refusal_of self.now share.now }
    {
        are_a_share_set(self);
        // An empty set takes every share.
        let held = self.any_share()?;
        let other_threshold = self.has_other_threshold(share);
        let other_value = self.has_other_value(share);
        first_cause(held, share, other_threshold, other_value)
    }

    /// Whether the share's group has another member threshold.
    #[tactic(auto, using(crate::proofs::Refusals::threshold_test))]
    fn has_other_threshold(&self, share: &Share) -> bool
        ensures { result ≡ threshold_differs self.now share.now }
    {
        are_a_share_set(self);
        match self.member_threshold(share.fields().group_index) {
            Some(threshold) => threshold != share.member_threshold(),
            None => false,
        }
    }

    /// Whether the set has a share of the share's name with another value.
    #[tactic(auto, using(crate::proofs::Refusals::value_test))]
    fn has_other_value(&self, share: &Share) -> bool
        ensures { result ≡ value_differs self.now share.now }
    {
        match share_at(self, share.group_index(), share.member_index()) {
            Some(held) => held.value().as_slice() != share.value().as_slice(),
            None => false,
        }
    }

    /// A share of the set, if it has one.
    #[tactic(auto, using(crate::proofs::Slots::placed, crate::proofs::Slots::own_slot, crate::proofs::Slots::none_before_more))]
    fn any_share(&self) -> Option<&Share>
        ensures some { IfSome (option_copied result) (Contains self.now) }
        ensures none { result ≡ None → All (λ share. ¬ IsBefore most_names share) self.now }
    {
        for slot in 0..MAX_NAMES {
            if let Some(share) = &self.slots[slot] {
                return Some(share);
            }
        }
        None
    }

    /// Whether the set has the share of this group and member index, `false` for an index over 15.
    pub(crate) fn is_at_hand(&self, group: u8, member: u8) -> bool
        ensures { IsTrue result ↔ Contains (map name_of self.now) (group, member) }
    {
        share_at(self, group, member).is_some()
    }

    /// Whether the set has no share.
    pub fn is_empty(&self) -> bool
        ensures { IsTrue result ↔ (self.now ≡ []) }
    {
        self.group_threshold().is_none()
    }

    /// The member threshold of the shares of a group, if the set has one.
    pub(crate) fn member_threshold(&self, group: u8) -> Option<u8>
        requires { group < most_groups }
        ensures { result ≡ member_threshold_of self.now group }
    {
        self.member_thresholds[usize::from(group)]
    }

    /// The group threshold of the shares, if there is one.
    pub(crate) fn group_threshold(&self) -> Option<u8>
        ensures { result ≡ group_threshold_of self.now }
    {
        self.group_threshold
    }
}

impl Default for ShareSet {
    ghost is_default = { λ set. set ≡ [] };

    fn default() -> ShareSet {
        ShareSet::new()
    }
}

/// The first cause for which a share can't join, by a share with what all have in common, and by whether the share's group
/// has another member threshold and its name another value.
fn first_cause(
    held: &Share,
    share: &Share,
    other_threshold: bool,
    other_value: bool,
) -> Option<SetError>
    ensures { result ≡ first_cause held.now share.now other_threshold other_value }
{
    if held.id() != share.id() {
        Some(SetError::OtherIdentifier)
    } else if held.extendable() != share.extendable() {
        Some(SetError::OtherExtendable)
    } else if held.exponent() != share.exponent() {
        Some(SetError::OtherExponent)
    } else if held.group_threshold() != share.group_threshold() {
        Some(SetError::OtherGroupThreshold)
    } else if held.group_count() != share.group_count() {
        Some(SetError::OtherGroupCount)
    } else if held.value().len() != share.value().len() {
        Some(SetError::OtherLength)
    } else if other_threshold {
        Some(SetError::OtherMemberThreshold {
            group: share.group_index(),
        })
    } else if other_value {
        Some(SetError::ConflictingShare {
            group: share.group_index(),
            member: share.member_index(),
        })
    } else {
        None
    }
}

/// The slot of a name: as many for each group as it may have members.
pub(crate) fn slot_of(group: u8, member: u8) -> usize
    requires group { group < most_groups }
    requires member { member < most_members }
    ensures { result ≡ slot_of (group, member) }
{
    usize::from(group) * usize::from(MAX_MEMBERS) + usize::from(member)
}

/// The group and the member index whose slot this is.
pub(crate) fn indices_at(slot: usize) -> (u8, u8)
    requires { slot < most_names }
    ensures slot { slot_of result ≡ slot }
    ensures group { result.0 < most_groups }
    ensures member { result.1 < most_members }
{
    let members = usize::from(MAX_MEMBERS);
    ((slot / members) as u8, (slot % members) as u8)
}

/// States that a set's shares form an `IsShareSet`: they are of one backup, each once, in the order of their names. The
/// function does nothing. A proof uses it by a call.
pub fn are_a_share_set(set: &ShareSet)
    ensures { IsShareSet set.now }
{
    // That the field is named tells a proof what the set keeps.
    let _ = &set.slots;
}

/// The share of this group and member index. It is `None` if the set has no such share, as for an index over 15.
///
/// ```rust
/// // The set has members 0 and 2 of group 0, of which two are needed.
/// assert_eq!(rt; share_at(&set, 0, 2).map(|share| share.member_threshold()), Some(2));
/// assert!(rt; share_at(&set, 0, 1).is_none());
/// ```
#[tactic(auto, using(crate::proofs::Sets::none_past))]
pub fn share_at(set: &ShareSet, group: u8, member: u8) -> Option<&Share>
    ensures share { option_copied result ≡ find (has_name group member) set.now }
    ensures is_set { IsShareSet set.now }
{
    if group < MAX_GROUPS && member < MAX_MEMBERS {
        set.slots[slot_of(group, member)].as_ref()
    } else {
        None
    }
}
