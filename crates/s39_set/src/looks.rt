//! Counted looks: questions whether a set has a share, and turns of loops.
ghost use Rattle.std.specs.Prelude.{◌≡◌, ◌+◌, ◌<◌, ◌↔◌, map, Contains, IsTrue};
ghost use Rattle.s39_set.specs.ShareSet.{name_of};

use crate::share_set::ShareSet;
use std::marker::Model;

/// A count of looks. A look is a question whether a set has a share (`has`), or one run of a loop's body in a function
/// that takes looks (`turn`).
#[derive(Debug, Drop)]
pub struct Looks {
    count: u64,
}

impl Model for Looks {
    ghost use Rattle.std.specs.Prelude.{ℕ};

    ghost Value = { ℕ };

    ghost view = { λ looks. looks.count };
}

impl Looks {
    /// Returns a count of 0.
    pub fn new() -> Looks
        ensures { result ≡ 0 }
    {
        Looks { count: 0 }
    }

    /// How many looks were taken, questions and turns.
    pub fn count(&self) -> u64
        ensures { result ≡ self.now }
    {
        self.count
    }

    /// Adds one to the count, for a turn of a loop or a question. The caller keeps the count below `u64::MAX`.
    pub fn turn(&mut self)
        requires { self.old < u64.MAX }
        ensures { self.new ≡ self.old + 1 }
    {
        self.count += 1;
    }
}

impl Default for Looks {
    ghost is_default = { λ looks. looks ≡ 0 };

    fn default() -> Looks {
        Looks::new()
    }
}

/// Whether a set has the share of this group and member index. It is `false` for an index over 15.
///
/// The question adds one look. The caller keeps their count below `u64::MAX`.
///
/// ```rust
/// // The set has members 0 and 2 of group 0.
/// let mut looks = Looks::new();
/// assert!(rt; has(&set, 0, 2, &mut looks));
/// assert!(rt; !has(&set, 0, 1, &mut looks));
/// assert_eq!(rt; looks.count(), 2);
/// ```
pub fn has(set: &ShareSet, group: u8, member: u8, looks: &mut Looks) -> bool
    requires { looks.old < u64.MAX }
    ensures has { IsTrue result ↔ Contains (map name_of set.now) (group, member) }
    ensures look { looks.new ≡ looks.old + 1 }
{
    looks.turn();
    set.is_at_hand(group, member)
}
