//! Laws of the two fields. Each is the contract of a function that does nothing.

ghost use Rattle.std.specs.Prelude.{◌≡◌, ◌≢◌, ◌-◌, ◌<◌, ℕ, length, slice_index};
ghost use Rattle.s39_field.specs.Field.{IsField};
ghost use Rattle.s39_field.specs.FieldProduct.{IsProduct, byte_modulus, word_modulus};
ghost use Rattle.s39_field.specs.FieldProduct.{product_modulo, byte_field, word_field};
ghost use Rattle.s39_field.specs.FieldProduct.{nonzero_bytes};
ghost use Rattle.s39_field.specs.Polynomial.{power};
ghost use Rattle.s39_field.specs.Interpolation.{PlacesDetermineCoefficients, PlacesDetermineValues};
ghost use Rattle.s39_field.specs.Interpolation.{PointsHaveOneValue, WeightsInterpolate};
ghost use Rattle.s39_field.specs.Interpolation.{StringsHaveAValue, StringsHaveOneValue};
ghost use Rattle.s39_field.specs.PowerSums.{PowerSumsDetermineValues, PowersOfTwoAreDistinct};
ghost use Rattle.s39_field.specs.PowerSums.{ValuesMultiply, ReversedValuesMultiply};
ghost use Rattle.s39_field.specs.PowerSums.{MultiplesKeepRoots, ReversedMultiplesKeepRoots};

use crate::logarithms::{LOGARITHMS, POWERS};
use crate::operations::Field;

/// For any two numbers, exactly one number meets the definition of their product modulo either polynomial.
pub fn one_product()
    ensures of_bytes { (a b : ℕ) → IsProduct byte_modulus a b (product_modulo byte_modulus a b) }
    ensures one_of_bytes { (a b r : ℕ) → IsProduct byte_modulus a b r
        → r ≡ product_modulo byte_modulus a b }
    ensures of_words { (a b : ℕ) → IsProduct word_modulus a b (product_modulo word_modulus a b) }
    ensures one_of_words { (a b r : ℕ) → IsProduct word_modulus a b r
        → r ≡ product_modulo word_modulus a b }
{}

/// The bytes and the ten-bit words satisfy the axioms of a field in which each element is its own
/// negative.
pub fn axioms()
    ensures of_bytes { IsField byte_field }
    ensures of_words { IsField word_field }
{}

/// Every implementation of [`Field`] satisfies these axioms.
pub fn axioms_of<F: Field>()
    ensures { IsField F.operations }
{}

/// The product of each nonzero element and its inverse is 1.
pub fn inverses()
    ensures of_bytes { (a : ℕ) → byte_field.IsElement a → a ≢ 0
        → byte_field.mul a (byte_field.inv a) ≡ 1 }
    ensures of_words { (a : ℕ) → word_field.IsElement a → a ≢ 0
        → word_field.mul a (word_field.inv a) ≡ 1 }
{}

/// The tables by which bytes are multiplied are right: entry `i` of the powers is `3^i`, and entry
/// `3^i - 1` of the logarithms is `i`.
pub fn tables()
    ensures powers { (i : ℕ) → i < nonzero_bytes → slice_index POWERS i ≡ power byte_field 3 i }
    ensures logarithms { (i : ℕ) → i < nonzero_bytes
        → slice_index LOGARITHMS (slice_index POWERS i - 1) ≡ i }
    ensures lengths { (length POWERS ≡ nonzero_bytes) × (length LOGARITHMS ≡ nonzero_bytes) }
{}

/// The values at distinct places determine a polynomial that has no more coefficients than there are
/// places, up to zeros at the end of its list. So they determine its values everywhere: points at
/// distinct places have at most one value at each further place.
pub fn one_polynomial<F: Field>()
    ensures coefficients { PlacesDetermineCoefficients F.operations }
    ensures places { PlacesDetermineValues F.operations }
    ensures points { PointsHaveOneValue F.operations }
{}

/// Points at distinct places have a value at each further place: the sum of Lagrange weight times
/// value.
pub fn weighted_values<F: Field>()
    ensures { WeightsInterpolate F.operations }
{}

/// Byte strings of one length at distinct places interpolate a byte string at each further place. If
/// there is at least one of them, they interpolate no other.
pub fn one_byte_string()
    ensures some { StringsHaveAValue }
    ensures one { StringsHaveOneValue }
{}

/// The value of a product of polynomials is the product of their values, so a multiple of a
/// polynomial is zero wherever that polynomial is. Both also hold for coefficients that are read from
/// the highest power down.
pub fn values_multiply<F: Field>()
    ensures values { ValuesMultiply F.operations }
    ensures reversed_values { ReversedValuesMultiply F.operations }
    ensures roots { MultiplesKeepRoots F.operations }
    ensures reversed_roots { ReversedMultiplesKeepRoots F.operations }
{}

/// Take values at distinct nonzero places. For each exponent from 1 to the number of places, multiply each value by
/// this power of its place, and add the products. If all these sums are zero, all values are zero.
pub fn power_sums<F: Field>()
    ensures { PowerSumsDetermineValues F.operations }
{}

/// The powers of 2 in the field of 1,024 elements are distinct up to the exponent 1,022. All powers are
/// elements, and none is zero.
pub fn powers_of_two()
    ensures distinct { PowersOfTwoAreDistinct }
    ensures elements { (n : ℕ) → word_field.IsElement (power word_field 2 n) }
    ensures nonzero { (n : ℕ) → power word_field 2 n ≢ 0 }
{}
