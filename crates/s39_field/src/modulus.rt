//! Products and inverses modulo a polynomial over two elements.

ghost use Rattle.std.specs.Prelude.{◌≡◌, ◌<◌, ◌^◌, ◌-◌};
ghost use Rattle.s39_field.specs.FieldProduct.{HasDegree, product_modulo, power_modulo};

use std::marker::Model;

/// A polynomial over two elements, by its binary digits, and its degree, from 1 to 15.
#[derive(Clone, Copy)]
pub(crate) struct Modulus {
    degree: u32,
    polynomial: u16,
}

impl Model for Modulus {
    ghost use Rattle.std.specs.Prelude.{◌<◌};
    ghost use Rattle.s39_field.specs.FieldProduct.{Modulus, HasDegree};

    ghost Value = { Modulus };

    ghost view = { λ m. record { degree = m.degree; polynomial = m.polynomial } };

    ghost inverse = { λ m. record { degree = m.degree; polynomial = m.polynomial } };

    ghost invariant = { λ m. HasDegree (record { degree = m.degree; polynomial = m.polynomial })
        × (m.degree < 16) };
}

/// The modulus `x^10 + x^3 + 1` of the word field.
pub(crate) const WORD: Modulus = Modulus {
    degree: 10,
    polynomial: 0x409,
};

impl Modulus {
    /// The product of `x` and `a`.
    fn doubled(self, a: u16) -> u16
        requires { a < 2 ^ self.degree }
        ensures modulus { HasDegree self }
        ensures product { result ≡ product_modulo self a 2 }
        ensures element { result < 2 ^ self.degree }
    {
        let double = a << 1;
        if double >> self.degree == 0 {
            double
        } else {
            double ^ self.polynomial
        }
    }

    /// The product of two elements.
    pub(crate) fn product(self, a: u16, b: u16) -> u16
        requires { a < 2 ^ self.degree }
        ensures product { result ≡ product_modulo self a b }
        ensures element { result < 2 ^ self.degree }
    {
        let mut sum = 0;
        let mut shifted = a;
        let mut rest = b;
        while rest != 0 {
            if rest & 1 == 1 {
                sum ^= shifted;
            }
            shifted = self.doubled(shifted);
            rest >>= 1;
        }
        sum
    }

    /// The power `a^(2^degree - 2)`, as the product of the squares `a^2`, `a^4`, ..
    pub(crate) fn inverse(self, a: u16) -> u16
        requires { a < 2 ^ self.degree }
        ensures power { result ≡ power_modulo self a (2 ^ self.degree - 2) }
        ensures element { result < 2 ^ self.degree }
    {
        let mut square = a;
        let mut power = 1;
        for _ in 1..self.degree {
            square = self.product(square, square);
            power = self.product(power, square);
        }
        power
    }
}
