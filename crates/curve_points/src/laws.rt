//! Laws of points. But for the first, each is the contract of a function that does nothing.

ghost use Rattle.std.specs.Prelude.{◌≡◌, ℕ, ◌%◌, ◌^◌, ◌<◌, Some};
ghost use Rattle.curve_points.specs.declared.point.Affine.{Affine};
ghost use Rattle.curve_points.specs.declared.point.Point.{Point};
ghost use Rattle.curve_points.specs.Points.{sum_of};
ghost use Rattle.curve_points.specs.Multiples.{multiple, public_point};
ghost use Rattle.curve_points.specs.OnCurve.{IsCurvePoint, IsOnCurve};
ghost use Rattle.curve_points.specs.Lifted.{even, lift_x};

use crate::jacobian::multiple;
use crate::point::{Affine, Point};
use crate::secret::secret_multiple;
use curve_field::Scalar;

/// Both multiplications give the multiple along the 256 bits of the scalar.
pub fn multiplications_agree(point: &Affine, scalar: Scalar) -> (Point, Point)
    ensures public { result.0 ≡ multiple 256 scalar (Point.Finite point.now) }
    ensures secret { result.1 ≡ multiple 256 scalar (Point.Finite point.now) }
{
    (multiple(point, scalar), secret_multiple(point, scalar))
}

/// Sums and multiples of points of the curve are points of the curve. So each public key is one.
pub fn points_stay_on_the_curve()
    ensures sums { (p q : Point) → IsCurvePoint p → IsCurvePoint q → IsCurvePoint (sum_of p q) }
    ensures multiples { (bits scalar : ℕ) (p : Point) → IsCurvePoint p
        → IsCurvePoint (multiple bits scalar p) }
    ensures public_keys { (key : ℕ) → IsCurvePoint (public_point key) }
{}

/// The x of a point of the curve is lifted to the point or to its opposite, whichever has an even y. What is lifted is a point
/// of the curve with this x and an even y. So [`lift_x`](crate::lift_x) refuses an x exactly if no point has it.
pub fn points_are_lifted()
    ensures lifted { (a : Affine) → IsOnCurve a → lift_x a.x ≡ Some (record { x = a.x; y = even a.y }) }
    ensures only { (x : ℕ) (a : Affine) → lift_x x ≡ Some a → IsOnCurve a × (a.x ≡ x) × (a.y % 2 ≡ 0) }
{}

/// A multiple is the same along any number of bits that the scalar fits into.
pub fn zeros_in_front_change_nothing()
    ensures { (bits more scalar : ℕ) (p : Point) → scalar < 2 ^ bits → scalar < 2 ^ more
        → multiple bits scalar p ≡ multiple more scalar p }
{}
