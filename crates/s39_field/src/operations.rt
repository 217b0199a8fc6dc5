//! The operations that both fields have, and their laws.

ghost use Rattle.std.specs.Prelude.{◌≡◌, ◌≢◌};
ghost use Rattle.s39_field.specs.Field.{Operations, IsField};

/// A field in which each element is its own negative, so that subtraction is addition.
///
/// SLIP-0039 uses two such fields: [`Gf256`](crate::Gf256) and [`Gf1024`](crate::Gf1024). Every value of
/// an implementing type is an element of the field, and the contracts of the operations state this of
/// the values that they take. The law `laws::axioms_of` states the axioms.
///
/// ```rust
/// let a = Gf256::from(0x53);
/// assert_eq!(rt; a.add(Gf256::from(0xCA)), Gf256::from(0x99));
/// assert_eq!(rt; a.add(a), Gf256::ZERO);
/// assert_eq!(rt; a.mul(Gf256::from(0xCA)), Gf256::ONE);
/// assert_eq!(rt; a.inv(), Gf256::from(0xCA));
/// ```
pub trait Field: Copy + Eq {
    /// What contracts and laws call the elements, zero, one, the sum, the product and the inverse.
    ghost operations: { Operations Self };

    ghost ZERO: { Self };

    ghost ONE: { Self };

    /// The zero of the field: adding it changes no element.
    const ZERO: Self;

    /// The one of the field: multiplying by it changes no element.
    const ONE: Self;

    /// Returns the sum of two elements, which is also their difference.
    fn add(self, other: Self) -> Self
        ensures sum { result ≡ operations.add self other }
        ensures self_element { operations.IsElement self }
        ensures other_element { operations.IsElement other };

    /// Returns the product of two elements.
    fn mul(self, other: Self) -> Self
        ensures product { result ≡ operations.mul self other }
        ensures self_element { operations.IsElement self }
        ensures other_element { operations.IsElement other };

    /// Returns the multiplicative inverse of an element. The element must not be zero, which has none.
    fn inv(self) -> Self
        requires { self ≢ operations.zero }
        ensures inverse { result ≡ operations.inv self }
        ensures self_element { operations.IsElement self };

    ghost is_field: { IsField operations };

    ghost zero_is: { ZERO ≡ operations.zero };

    ghost one_is: { ONE ≡ operations.one };
}
