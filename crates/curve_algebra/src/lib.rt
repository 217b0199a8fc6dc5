//! Theorems about the numbers of secp256k1, and nothing that runs. Each is the contract of a function that does nothing.
#![tactic(auto)]

ghost use Rattle.std.specs.Prelude.{◌≡◌, ◌≢◌, ℕ, ◌-◌, ◌*◌, ◌%◌, ◌<◌};
ghost use Rattle.curve_field.specs.Field.{prime, power, ◌⊗◌};
ghost use Rattle.curve_field.specs.Order.{order};
ghost use Rattle.curve_algebra.specs.Fields.{IsPrime};

/// The prime of the field and the order of the group are prime.
pub fn primes()
    ensures prime { IsPrime prime }
    ensures order { IsPrime order }
{}

/// The product of each element but 0 and its inverse, which is the power whose exponent is the prime less 2, is 1.
pub fn inverses()
    ensures { (b : ℕ) → b < prime → b ≢ 0 → power b (prime - 2) ⊗ b ≡ 1 }
{}

/// A product of elements is 0 only if one of them is 0.
pub fn no_zero_divisors()
    ensures { (a b : ℕ) → a < prime → b < prime → a ≢ 0 → b ≢ 0 → a ⊗ b ≢ 0 }
{}
