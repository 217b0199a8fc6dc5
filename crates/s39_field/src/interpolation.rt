//! Interpolation over bytes: the weights of places.

ghost use Rattle.std.specs.Prelude.{◌≡◌, ◌≢◌, ◌<◌, ℕ, List, length, remove, zip};
ghost use Rattle.std.specs.Prelude.{All, AllPairs};
ghost use Rattle.s39_field.specs.FieldProduct.{byte_field};
ghost use Rattle.s39_field.specs.Interpolation.{Interpolates};
ghost use Rattle.s39_field.specs.Interpolation.{differences, weights_of, weighted_sum};

use crate::byte::Gf256;
use crate::logarithms::LogProduct;
use crate::operations::Field;

/// The product of `x - place` over all places except the one at index `except`, or over all if there is none at it.
fn product_of_differences(x: Gf256, places: &[Gf256], except: usize) -> Gf256
    ensures product { result ≡ differences byte_field x (remove places.now except) }
    ensures elements { All byte_field.IsElement places.now }
{
    let mut product = LogProduct::one();
    for (i, place) in places.iter().enumerate() {
        let difference = x.add(*place);
        if i != except {
            product = product.times(u8::from(difference));
        }
    }
    Gf256::from(product.value())
}

/// The same product, by the product over all places: a division takes less time.
fn product_without(whole: Gf256, x: Gf256, places: &[Gf256], except: usize) -> Gf256
    requires whole { whole ≡ differences byte_field x places.now }
    requires within { except < length places.now }
    ensures { result ≡ differences byte_field x (remove places.now except) }
{
    let own = x.add(places[except]);
    if own == Gf256::ZERO {
        return product_of_differences(x, places, except);
    }
    whole.mul(own.inv())
}

/// Computes the Lagrange weights of distinct places at `at` (SLIP-0039, "Shamir's secret sharing"):
/// `out[i]` becomes the product of `(at - xs[j]) / (xs[i] - xs[j])` over all `j` other than `i`.
///
/// No two places may be equal, and `out` must be as long as `xs`. For any bytes at the places, the sum of
/// weight times byte is the value at `at` of a polynomial through these points that has no more
/// coefficients than there are places.
///
/// ```rust
/// let places = [Gf256::from(0x00), Gf256::from(0x01)];
/// let mut out = [Gf256::ZERO; 2];
/// weights(&places, Gf256::from(0xFF), &mut out);
/// assert_eq!(rt; out, [Gf256::from(0xFE), Gf256::from(0xFF)]);
/// ```
pub fn weights(xs: &[Gf256], at: Gf256, out: &mut [Gf256])
    requires distinct { AllPairs (λ p q. p ≢ q) xs.now }
    requires same_length { length xs.now ≡ length out.old }
    ensures weights { out.new ≡ weights_of byte_field xs.now at }
    ensures interpolates { (values : List ℕ)
        → All byte_field.IsElement values
        → length values ≡ length xs.now
        → Interpolates byte_field (zip xs.now values) at
        (weighted_sum byte_field out.new values) }
{
    let whole = product_of_differences(at, xs, xs.len());
    for (i, weight) in out.iter_mut().enumerate() {
        let numerator = product_without(whole, at, xs, i);
        let denominator = product_of_differences(xs[i], xs, i);
        *weight = numerator.mul(denominator.inv());
    }
}
