//! Multiples in Jacobian coordinates, which need one inverse at the end.

ghost use Rattle.std.specs.Prelude.{◌≡◌};
ghost use Rattle.curve_field.specs.Field.{◌⊕◌, ◌⊗◌};
ghost use Rattle.curve_points.specs.Points.{sum_of};
ghost use Rattle.curve_points.specs.Multiples.{multiple, next_multiple};
ghost use Rattle.curve_points.specs.Jacobian.{IsJacobian, added_x, added_y};

use crate::point::{Affine, Point};
use curve_field::{FieldElement, Scalar, sum};

/// The point `(x / z^2, y / z^3)`, or infinity if `z` is 0.
#[derive(Drop)]
pub(crate) struct Jacobian {
    pub(crate) x: FieldElement,
    pub(crate) y: FieldElement,
    pub(crate) z: FieldElement,
}

impl Jacobian {
    pub(crate) fn infinity() -> Jacobian
        ensures { IsJacobian result.x result.y result.z Point.Infinity }
    {
        Jacobian {
            x: FieldElement::zero(),
            y: FieldElement::zero(),
            z: FieldElement::zero(),
        }
    }

    pub(crate) fn of(point: &Affine) -> Jacobian
        ensures { IsJacobian result.x result.y result.z (Point.Finite point.now) }
    {
        point.x.below_prime();
        point.y.below_prime();
        Jacobian {
            x: point.x,
            y: point.y,
            z: FieldElement::one(),
        }
    }

    /// Twice the point.
    pub(crate) fn double(&self) -> Jacobian
        ensures { (p : Point) → IsJacobian self.now.x self.now.y self.now.z p
            → IsJacobian result.x result.y result.z (sum_of p p) }
    {
        self.z.below_prime();
        let square = self.y.mul(self.y);
        let s = twice(twice(self.x.mul(square)));
        let xx = self.x.mul(self.x);
        let m = twice(xx).add(xx);
        let x = m.mul(m).sub(twice(s));
        let eight = twice(twice(twice(square.mul(square))));
        let y = m.mul(s.sub(x)).sub(eight);
        let z = twice(self.y.mul(self.z));
        Jacobian { x, y, z }
    }

    /// The sum of the point and another.
    fn add(&self, other: &Affine) -> Jacobian
        ensures { (p : Point) → IsJacobian self.now.x self.now.y self.now.z p
            → IsJacobian result.x result.y result.z (sum_of p (Point.Finite other.now)) }
    {
        other.x.below_prime();
        other.y.below_prime();
        if self.z.is(FieldElement::zero()) {
            return Jacobian::of(other);
        }
        let zz = self.z.mul(self.z);
        let h = other.x.mul(zz).sub(self.x);
        let r = other.y.mul(zz.mul(self.z)).sub(self.y);
        if !h.is(FieldElement::zero()) {
            return self.chord(h, r);
        }
        if r.is(FieldElement::zero()) {
            return self.double();
        }
        Jacobian::infinity()
    }

    /// The sum of the point and another, by the scaled differences of their coordinates.
    pub(crate) fn chord(&self, h: FieldElement, r: FieldElement) -> Jacobian
        ensures x { result.x ≡ added_x self.now.x h r }
        ensures y { result.y ≡ added_y self.now.x self.now.y h r }
        ensures z { result.z ≡ self.now.z ⊗ h }
    {
        let hh = h.mul(h);
        let hhh = hh.mul(h);
        let v = self.x.mul(hh);
        let x = r.mul(r).sub(hhh).sub(twice(v));
        let y = r.mul(v.sub(x)).sub(self.y.mul(hhh));
        let z = self.z.mul(h);
        Jacobian { x, y, z }
    }

    /// The point's own coordinates.
    pub(crate) fn point(&self) -> Point
        ensures { (p : Point) → IsJacobian self.now.x self.now.y self.now.z p → result ≡ p }
    {
        if self.z.zero_flag() == 1 {
            return Point::Infinity;
        }
        let inverse = self.z.inverse();
        let square = inverse.mul(inverse);
        let x = self.x.mul(square);
        let y = self.y.mul(square.mul(inverse));
        Point::Finite(Affine { x, y })
    }

    /// Twice the total, and the point added to it if the bit is 1.
    fn next(&self, point: &Affine, bit: u64) -> Jacobian
        ensures { (p : Point) → IsJacobian self.now.x self.now.y self.now.z p
            → IsJacobian result.x result.y result.z (next_multiple (Point.Finite point.now) p bit) }
    {
        let doubled = self.double();
        if bit == 1 {
            doubled.add(point)
        } else {
            doubled
        }
    }
}

/// Returns this multiple of the point. Its branches depend on the scalar: for a secret one, use
/// [`secret_multiple`](crate::secret_multiple).
pub fn multiple(point: &Affine, scalar: Scalar) -> Point
    ensures { result ≡ multiple 256 scalar (Point.Finite point.now) }
{
    let mut rest = scalar.limbs();
    let mut total = Jacobian::infinity();
    for n in 0..256u32 {
        let (shifted, bit) = sum(rest, rest);
        total = total.next(point, bit);
        rest = shifted;
    }
    total.point()
}

fn twice(a: FieldElement) -> FieldElement
    ensures { result ≡ a ⊕ a }
{
    a.add(a)
}
