//! Laws of paths. Each is the contract of a function that does nothing.

ghost use Rattle.std.specs.Prelude.{◌≡◌, ℕ, List, [], ◌∷◌, ◌++◌};
ghost use Rattle.std.specs.Option.{option_and_then};
ghost use Rattle.bip32.specs.declared.extended_key.ExtendedKey.{ExtendedKey};
ghost use Rattle.bip32.specs.Derivation.{child};
ghost use Rattle.bip32.specs.Paths.{at};

/// The key at the end of two paths in a row is the one that the second leads to from the end of the first. So a child of a
/// child is what the path of both indexes says.
pub fn paths_in_a_row()
    ensures rows { (start : ExtendedKey) (first second : List ℕ)
        → at start (first ++ second) ≡ option_and_then (λ key. at key second) (at start first) }
    ensures one { (start : ExtendedKey) (index : ℕ) → at start (index ∷ []) ≡ child start index }
{}
