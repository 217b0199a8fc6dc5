//! Multiples by a secret scalar. No branch and no address depends on the scalar.

ghost use Rattle.std.specs.Prelude.{◌≡◌, ◌≤◌};
ghost use Rattle.curve_points.specs.Points.{sum_of};
ghost use Rattle.curve_points.specs.Multiples.{multiple, next_multiple};
ghost use Rattle.curve_points.specs.Jacobian.{IsJacobian};

use crate::jacobian::Jacobian;
use crate::point::{Affine, Point};
use curve_field::{FieldElement, Scalar, sum};

/// Returns this multiple of the point. Each of 256 steps doubles, adds by the formula for points at distinct x, and selects
/// among the results of all cases. So no address depends on the scalar, and one branch: whether the multiple is infinity. A
/// random scalar meets this once in 2^256 if the point is the generator, namely if it's 0.
pub fn secret_multiple(point: &Affine, scalar: Scalar) -> Point
    ensures { result ≡ multiple 256 scalar (Point.Finite point.now) }
{
    let twice = Jacobian::of(point).double();
    let mut rest = scalar.limbs();
    let mut total = Jacobian::infinity();
    for n in 0..256u32 {
        let (shifted, bit) = sum(rest, rest);
        total = next(&total, point, &twice, bit);
        rest = shifted;
    }
    total.point()
}

/// Twice the total, and the point added to it if the bit is 1.
fn next(total: &Jacobian, point: &Affine, twice: &Jacobian, bit: u64) -> Jacobian
    requires twice { IsJacobian twice.now.x twice.now.y twice.now.z (sum_of (Point.Finite point.now) (Point.Finite point.now)) }
    requires bit { bit ≤ 1 }
    ensures { (p : Point) → IsJacobian total.now.x total.now.y total.now.z p
        → IsJacobian result.x result.y result.z (next_multiple (Point.Finite point.now) p bit) }
{
    let doubled = total.double();
    let more = add(&doubled, point, twice);
    select(bit, &more, &doubled)
}

/// The sum of a point and another, of which twice the other is known. Each case is computed, and then one is selected.
fn add(total: &Jacobian, other: &Affine, twice: &Jacobian) -> Jacobian
    requires { IsJacobian twice.now.x twice.now.y twice.now.z (sum_of (Point.Finite other.now) (Point.Finite other.now)) }
    ensures { (p : Point) → IsJacobian total.now.x total.now.y total.now.z p
        → IsJacobian result.x result.y result.z (sum_of p (Point.Finite other.now)) }
{
    other.x.below_prime();
    other.y.below_prime();
    let once = Jacobian::of(other);
    let zz = total.z.mul(total.z);
    let h = other.x.mul(zz).sub(total.x);
    let r = other.y.mul(zz.mul(total.z)).sub(total.y);
    let chord = total.chord(h, r);
    let same_x = h.zero_flag();
    let same_y = r.zero_flag();
    let infinite = total.z.zero_flag();
    let same = select(same_y, twice, &chord);
    let finite = select(same_x, &same, &chord);
    select(infinite, &once, &finite)
}

/// Returns the first if the flag is 1, and the second if it is 0.
#[inline(always)]
fn select(flag: u64, a: &Jacobian, b: &Jacobian) -> Jacobian
    requires { flag ≤ 1 }
    ensures one { flag ≡ 1 → result ≡ a.now }
    ensures zero { flag ≡ 0 → result ≡ b.now }
{
    Jacobian {
        x: FieldElement::select(flag, a.x, b.x),
        y: FieldElement::select(flag, a.y, b.y),
        z: FieldElement::select(flag, a.z, b.z),
    }
}
