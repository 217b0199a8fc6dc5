//! The public key of a private one, and the bytes of a point.

ghost use Rattle.std.specs.Prelude.{◌≡◌};
ghost use Rattle.curve_points.specs.Multiples.{public_point};
ghost use Rattle.curve_points.specs.Compressed.{compressed};

use crate::point::{Point, generator};
use crate::secret::secret_multiple;
use curve_field::Scalar;

/// Returns the public key of a private one. What [`secret_multiple`] says of branches holds here too.
///
/// ```rust
/// let mut bytes = [0; 32];
/// bytes[31] = 1;
/// let key = scalar(&bytes)?;
/// let public = compressed(&public_point(key));
/// assert_eq!(rt; &public[..4], b"\x02\x79\xbe\x66".as_slice());
/// ```
pub fn public_point(key: Scalar) -> Point
    ensures { result ≡ public_point key }
{
    secret_multiple(&generator(), key)
}

/// Returns a point in the 33 bytes of SEC 1's compressed form.
pub fn compressed(point: &Point) -> [u8; 33]
    ensures { result ≡ compressed point.now }
{
    let mut bytes = [0; 33];
    match point {
        Point::Infinity => bytes,
        Point::Finite(a) => {
            let (first, rest) = bytes.split_at_mut(1);
            first[0] = 2 + a.y.parity() as u8;
            rest.copy_from_slice(&a.x.to_bytes());
            bytes
        }
    }
}
