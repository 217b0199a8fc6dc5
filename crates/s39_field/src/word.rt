//! The field of 1,024 elements, in which checksums are computed.

ghost use Rattle.std.specs.Prelude.{◌≡◌, ◌<◌, ◌≤◌, ◌++◌, Some, MatchResult, codes, refl};
ghost use Rattle.std.specs.Fmt.{decimal};
ghost use Rattle.s39_field.specs.FieldProduct.{IsProduct, product_modulo, word_modulus};
ghost use Rattle.s39_field.specs.FieldProduct.{word_field, word_field_order};
ghost use Rattle.s39_field.specs.Theory.Powers.{word_field_is_field};

use crate::modulus::WORD;
use crate::operations::Field;
use std::error::Error;
use std::fmt;
use std::marker::Model;

/// A ten-bit word as an element of the field of 1,024 elements (SLIP-0039, "Checksum").
///
/// The elements are the polynomials of degree 9 or less over the field of two elements, modulo
/// `x^10 + x^3 + 1`. Bit `i` of the word is the coefficient of `x^i`. `try_from` takes numbers below
/// 1,024 and refuses all others by [`NotTenBits`]; `u16::from` gives the number back.
///
/// ```rust
/// let product = Gf1024::try_from(512)?.mul(Gf1024::try_from(2)?);
/// assert_eq!(rt; u16::from(product), 9);
/// assert_eq!(rt; Gf1024::try_from(1024), Err(NotTenBits(1024)));
/// ```
#[derive(Clone, Copy, Debug, PartialEq, Eq)]
pub struct Gf1024(u16);

/// The number of elements of the field.
const ORDER: u16 = 1024;

/// The error of `Gf1024::try_from`: it holds the number that can't be converted, which is 1,024 or more.
#[derive(Clone, Copy, Debug, PartialEq, Eq)]
pub struct NotTenBits(pub u16);

impl Model for Gf1024 {
    ghost use Rattle.std.specs.Prelude.{ℕ};
    ghost use Rattle.s39_field.specs.FieldProduct.{word_field};

    ghost Value = { ℕ };

    ghost view = { λ a. a.0 };

    ghost inverse = { λ n. record { 0 = n } };

    ghost invariant = { λ a. word_field.IsElement a.0 };
}

impl Field for Gf1024 {
    ghost operations = { word_field };

    ghost ZERO = { 0 };

    ghost ONE = { 1 };

    const ZERO: Gf1024 = Gf1024(0);

    const ONE: Gf1024 = Gf1024(1);

    ghost is_field = { word_field_is_field };

    ghost zero_is = { refl };

    ghost one_is = { refl };

    fn add(self, other: Gf1024) -> Gf1024 {
        Gf1024(self.0 ^ other.0)
    }

    fn mul(self, other: Gf1024) -> Gf1024
        ensures product { result ≡ product_modulo word_modulus self other }
        ensures is_product { IsProduct word_modulus self other result }
        ensures self_element { word_field.IsElement self }
        ensures other_element { word_field.IsElement other }
    {
        Gf1024(WORD.product(self.0, other.0))
    }

    fn inv(self) -> Gf1024 {
        Gf1024(WORD.inverse(self.0))
    }
}

impl TryFrom<u16> for Gf1024 {
    type Error = NotTenBits;

    ghost try_from_gives = { λ number result.
        MatchResult result (λ element. (number < word_field_order) × (element ≡ number))
        (λ error. (word_field_order ≤ number) × (error.0 ≡ number)) };

    fn try_from(number: u16) -> Result<Gf1024, NotTenBits> {
        if number < ORDER {
            Ok(Gf1024(number))
        } else {
            Err(NotTenBits(number))
        }
    }
}

impl From<Gf1024> for u16 {
    ghost from_gives = { λ element number. (number ≡ element) × word_field.IsElement number };

    fn from(element: Gf1024) -> u16 {
        element.0
    }
}

impl fmt::Display for NotTenBits {
    ghost output = { λ number. Some (decimal number.0 ++ codes " is not below 1024") };

    fn fmt<W: fmt::Write>(&self, f: &mut fmt::Formatter<W>) -> fmt::Result {
        write!(f, "{} is not below 1024", self.0)
    }
}

impl Error for NotTenBits {}
