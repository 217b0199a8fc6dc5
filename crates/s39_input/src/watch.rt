//! What is told how far a run is.
use s39_set::ShareSet;

/// What is told how far a run is: a drill tells of the set that it found and of the quorums that it has listed, and a
/// recovery tells before it writes. `()` is told nothing.
pub trait Watch {
    ghost use Rattle.std.specs.Prelude.{ℕ, List};
    ghost use Rattle.s39_words.specs.declared.ShareFields.{ShareFields};
    ghost use Rattle.s39_set.specs.declared.set_lack.SetLack.{SetLack};
    ghost use Rattle.s39_set.specs.Lack.{IsLack};
    ghost use Rattle.s39_set.specs.ShareSet.{IsShareSet};

    // It is told of this set.
    ghost finds: { List ShareFields → Self → Self → Type 0 };

    // It is told that a secret is about to be written.
    ghost awaits: { Self → Self → Type 0 };

    // It is told that so many quorums are listed.
    ghost counts: { ℕ → Self → Self → Type 0 };

    /// Is told of the set whose quorums are about to be listed. It has one.
    fn found(&mut self, set: &ShareSet)
        requires is_set { IsShareSet set.now }
        requires some { (lack : SetLack) → ¬ IsLack set.now lack }
        ensures { finds set.now self.old self.new };

    /// Is told that a secret is about to be written.
    fn about_to_write(&mut self)
        ensures { awaits self.old self.new };

    /// Is told that so many quorums are listed. A drill calls it with 1, 2, .. in turn.
    fn listed(&mut self, count: u32)
        ensures { counts count self.old self.new };
}

impl Watch for () {
    ghost use Rattle.std.specs.Prelude.{◌≡◌};

    ghost finds = { λ set old new. new ≡ old };

    ghost awaits = { λ old new. new ≡ old };

    ghost counts = { λ count old new. new ≡ old };

    fn found(&mut self, _set: &ShareSet) {}

    fn about_to_write(&mut self) {}

    fn listed(&mut self, _count: u32) {}
}
