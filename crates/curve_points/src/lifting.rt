//! Points by their x.

ghost use Rattle.std.specs.Prelude.{◌≡◌};
ghost use Rattle.curve_points.specs.Lifted.{curve_at, even, lift_x};

use crate::point::Affine;
use curve_field::FieldElement;

/// Returns the point of the curve with this x whose y is even, or `None` if there is none. Its branches depend on x.
///
/// ```rust
/// let lifted = lift_x(generator().x).expect(&rt, "a point has this x");
/// assert!(rt; lifted.y.is(generator().y));
/// assert!(rt; lift_x(FieldElement::from_words(0, 0, 0, 5)).is_none());
/// ```
#[tactic(auto, unfolding(crate::specs::Lifted::lift_x))]
pub fn lift_x(x: FieldElement) -> Option<Affine>
    ensures { result ≡ lift_x x }
{
    x.below_prime();
    let square = curve_at(x);
    let y = square.square_root();
    if y.mul(y).is(square) {
        Some(Affine { x, y: even(y) })
    } else {
        None
    }
}

/// Returns the square of y of a point with this x.
fn curve_at(x: FieldElement) -> FieldElement
    ensures { result ≡ curve_at x }
{
    x.mul(x.mul(x)).add(FieldElement::from_words(0, 0, 0, 7))
}

/// Returns the element or its opposite, whichever is even.
fn even(y: FieldElement) -> FieldElement
    ensures { result ≡ even y }
{
    y.below_prime();
    if y.parity() == 0 {
        y
    } else {
        FieldElement::zero().sub(y)
    }
}
