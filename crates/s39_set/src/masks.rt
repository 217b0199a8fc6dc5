//! Sets of names as masks.
ghost use Rattle.std.specs.Prelude.{◌≡◌, ℕ, ◌<◌, false};
ghost use Rattle.s39_set.specs.Names.{most_groups, most_members};
ghost use Rattle.s39_set.specs.Masks.{is_in, AddsName};

use crate::limits::MAX_NAMES;
use crate::share_set::slot_of;

/// Some names: for each group a mask of 16 flags, one group after the other. Flag m of a group says whether the name
/// with member index m is one.
#[derive(Clone, Copy, Debug)]
pub(crate) struct Masks {
    pub(crate) flags: [bool; MAX_NAMES],
}

impl Masks {
    /// No names.
    pub(crate) fn new() -> Masks
        ensures { (group member : ℕ) → is_in result group member ≡ false }
    {
        Masks {
            flags: [false; MAX_NAMES],
        }
    }

    /// Whether the name of this group and member index is one.
    pub(crate) fn has(&self, group: u8, member: u8) -> bool
        requires group { group < most_groups }
        requires member { member < most_members }
        ensures { result ≡ is_in self.now group member }
    {
        self.flags[slot_of(group, member)]
    }

    /// Adds the name of this group and member index.
    #[tactic(auto, using(crate::proofs::Inserted::adds_name))]
    pub(crate) fn insert(&mut self, group: u8, member: u8)
        requires group { group < most_groups }
        requires member { member < most_members }
        ensures { AddsName self.old self.new (group, member) }
    {
        self.flags[slot_of(group, member)] = true;
    }
}
