//! Polynomials over a field.

ghost use Rattle.std.specs.Prelude.{◌≡◌};
ghost use Rattle.s39_field.specs.Polynomial.{value_at};

use crate::operations::Field;

/// Evaluates a polynomial at `x`: returns the sum of `coeffs[i] * x^i`.
///
/// Coefficients stand in ascending order of powers, so `coeffs[0]` is the constant term. A polynomial
/// without coefficients is zero everywhere.
///
/// ```rust
/// let coeffs = [Gf256::from(0x57), Gf256::from(0x83)];
/// assert_eq!(rt; eval(&coeffs, Gf256::from(0)), Gf256::from(0x57));
/// assert_eq!(rt; eval(&coeffs, Gf256::from(2)), Gf256::from(0x4A));
/// ```
pub fn eval<F: Field>(coeffs: &[F], x: F) -> F
    ensures { result ≡ value_at F.operations coeffs.now x }
{
    let mut value = F::ZERO;
    for c in coeffs.iter().rev() {
        value = value.mul(x).add(*c);
    }
    value
}
