//! The field of 256 elements, in which secrets are shared.

ghost use Rattle.std.specs.Prelude.{◌≡◌, refl};
ghost use Rattle.s39_field.specs.FieldProduct.{IsProduct, product_modulo, byte_modulus, byte_field};
ghost use Rattle.s39_field.specs.Theory.Powers.{byte_field_is_field};

use crate::logarithms;
use crate::operations::Field;
use std::marker::Model;

/// A byte as an element of the field of 256 elements (SLIP-0039, "Shamir's secret sharing").
///
/// The elements are the polynomials of degree 7 or less over the field of two elements, modulo
/// `x^8 + x^4 + x^3 + x + 1`. Bit `i` of the byte is the coefficient of `x^i`. Every byte is an element,
/// so conversions by `From` can't fail in either direction; the operations are those of [`Field`].
///
/// ```rust
/// let product = Gf256::from(0x57).mul(Gf256::from(0x83));
/// assert_eq!(rt; u8::from(product), 0xC1);
/// ```
#[derive(Clone, Copy, Debug, PartialEq, Eq)]
pub struct Gf256(u8);

impl Model for Gf256 {
    ghost use Rattle.std.specs.Prelude.{ℕ};

    ghost Value = { ℕ };

    ghost view = { λ a. a.0 };

    ghost inverse = { λ n. record { 0 = n } };
}

impl Field for Gf256 {
    ghost operations = { byte_field };

    ghost ZERO = { 0 };

    ghost ONE = { 1 };

    const ZERO: Gf256 = Gf256(0);

    const ONE: Gf256 = Gf256(1);

    ghost is_field = { byte_field_is_field };

    ghost zero_is = { refl };

    ghost one_is = { refl };

    fn add(self, other: Gf256) -> Gf256 {
        Gf256(self.0 ^ other.0)
    }

    fn mul(self, other: Gf256) -> Gf256
        ensures product { result ≡ product_modulo byte_modulus self other }
        ensures is_product { IsProduct byte_modulus self other result }
        ensures self_element { byte_field.IsElement self }
        ensures other_element { byte_field.IsElement other }
    {
        Gf256(logarithms::product(self.0, other.0))
    }

    fn inv(self) -> Gf256 {
        Gf256(logarithms::inverse(self.0))
    }
}

impl From<u8> for Gf256 {
    ghost from_gives = { λ byte element. element ≡ byte };

    fn from(byte: u8) -> Gf256 {
        Gf256(byte)
    }
}

impl From<Gf256> for u8 {
    ghost from_gives = { λ element byte. byte ≡ element };

    fn from(element: Gf256) -> u8 {
        element.0
    }
}
