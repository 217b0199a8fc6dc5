//! Points and their sums.

ghost use Rattle.std.specs.Prelude.{◌≡◌};
ghost use Rattle.curve_field.specs.Field.{◌⊗◌};
ghost use Rattle.curve_points.specs.Points.{sum_of, quotient, on_line, generator_x, generator_y};

use curve_field::FieldElement;

/// The coordinates of a point. They needn't be on the curve.
#[derive(Clone, Copy)]
pub struct Affine {
    pub x: FieldElement,
    pub y: FieldElement,
}

/// A point: infinity, or one that has coordinates.
#[derive(Clone, Copy)]
pub enum Point {
    Infinity,
    Finite(Affine),
}

impl Point {
    /// Returns the sum. Its branches depend on the points.
    pub fn add(&self, other: &Point) -> Point
        ensures { result ≡ sum_of self.now other.now }
    {
        match self {
            Point::Infinity => *other,
            Point::Finite(a) => match other {
                Point::Infinity => *self,
                Point::Finite(b) => add_finite(a, b),
            },
        }
    }
}

fn add_finite(a: &Affine, b: &Affine) -> Point
    ensures { result ≡ sum_of (Point.Finite a.now) (Point.Finite b.now) }
{
    if !a.x.is(b.x) {
        let slope = divide(b.y.sub(a.y), b.x.sub(a.x));
        return third_on_line(a, b.x, slope);
    }
    if !a.y.is(b.y) || a.y.is(FieldElement::zero()) {
        return Point::Infinity;
    }
    let slope = divide(triple(a.x.mul(a.x)), a.y.add(a.y));
    third_on_line(a, b.x, slope)
}

fn triple(a: FieldElement) -> FieldElement
    ensures { result ≡ 3 ⊗ a }
{
    a.add(a).add(a)
}

fn divide(a: FieldElement, b: FieldElement) -> FieldElement
    ensures { result ≡ quotient a b }
{
    a.mul(b.inverse())
}

/// Returns the point opposite to the third one on the line through the first with this slope.
fn third_on_line(a: &Affine, other_x: FieldElement, slope: FieldElement) -> Point
    ensures { result ≡ on_line a.now.x a.now.y other_x slope }
{
    let x = slope.mul(slope).sub(a.x).sub(other_x);
    let y = slope.mul(a.x.sub(x)).sub(a.y);
    Point::Finite(Affine { x, y })
}

/// The generator of the group.
pub fn generator() -> Affine
    ensures { result ≡ record { x = generator_x; y = generator_y } }
{
    Affine {
        x: FieldElement::from_words(
            0x79be_667e_f9dc_bbac,
            0x55a0_6295_ce87_0b07,
            0x029b_fcdb_2dce_28d9,
            0x59f2_815b_16f8_1798,
        ),
        y: FieldElement::from_words(
            0x483a_da77_26a3_c465,
            0x5da4_fbfc_0e11_08a8,
            0xfd17_b448_a685_5419,
            0x9c47_d08f_fb10_d4b8,
        ),
    }
}
