//! The interpolation of byte strings.
ghost use Rattle.std.specs.Prelude.{◌≡◌, ℕ, ◌<◌, ◌≤◌, List, length, take, map, zip, All, replicate, slice_index};
ghost use Rattle.arrayvec.specs.ArrayVec.{array_vec_len};
ghost use Rattle.s39_field.specs.FieldProduct.{byte_field};
ghost use Rattle.s39_field.specs.Interpolation.{Interpolates, InterpolatesBytes, weighted_sum};
ghost use Rattle.s39_kdf.specs.Limits.{longest_secret};
ghost use Rattle.s39_kdf.specs.Bytes.{AreBytes};
ghost use Rattle.s39_split.specs.Sharing.{most_shares};
ghost use Rattle.s39_split.specs.Shares.{indexed_bytes, AreDistinct};

use crate::places::MAX_SHARES;
use s39_field::{Field, Gf256, scaled_sum, weights};
use s39_kdf::{Bytes, MAX_SECRET_BYTES};

/// The only byte string that the points interpolate at `place`. A point is a place and a byte string.
pub(crate) fn interpolate(points: &[(u8, &Bytes)], place: u8) -> Bytes
    requires some { 0 < length points.now }
    requires few { length points.now ≤ most_shares }
    requires distinct { AreDistinct (indexed_bytes points.now) }
    requires one_length { (n : ℕ) × All (λ point. length point.1 ≡ n) (indexed_bytes points.now) }
    ensures value { InterpolatesBytes (indexed_bytes points.now) place result.items }
    ensures of_bytes { All (λ point. AreBytes point.1) (indexed_bytes points.now) }
{
    let weights = weights_at(points, place);
    let mut value = zeros(points[0].1.len());
    for (i, point) in points.iter().enumerate() {
        add_scaled(&mut value, weights[i], point.1);
    }
    value
}

/// The weight of each point's value in the value at `place`.
fn weights_at(points: &[(u8, &Bytes)], place: u8) -> [Gf256; MAX_SHARES]
    requires few { length points.now ≤ most_shares }
    requires distinct { AreDistinct (indexed_bytes points.now) }
    ensures number { length result ≡ most_shares }
    ensures interpolates { (values : List ℕ) → AreBytes values
        → length values ≡ length points.now
        → Interpolates byte_field (zip (map (λ point. point.0) points.now) values) place
        (weighted_sum byte_field (take (length points.now) result) values) }
{
    let mut places = [Gf256::ZERO; MAX_SHARES];
    for (i, point) in points.iter().enumerate() {
        places[i] = Gf256::from(point.0);
    }
    let mut out = [Gf256::ZERO; MAX_SHARES];
    weights(
        &places[..points.len()],
        Gf256::from(place),
        &mut out[..points.len()],
    );
    out
}

/// Adds `weight` times each byte of the row to the value's byte at its position.
fn add_scaled(value: &mut Bytes, weight: Gf256, row: &[u8])
    requires { array_vec_len value.old ≡ length row.now }
    ensures len { array_vec_len value.new ≡ length row.now }
    ensures bytes { AreBytes row.now }
    ensures sums { (k : ℕ) → k < length row.now → slice_index value.new.items k
        ≡ byte_field.add (slice_index value.old.items k)
        (byte_field.mul weight (slice_index row.now k)) }
{
    scaled_sum(value, weight, row);
}

/// A string of `n` zero bytes.
fn zeros(n: usize) -> Bytes
    requires { n ≤ longest_secret }
    ensures { result.items ≡ replicate n 0 }
{
    let mut bytes = Bytes::from([0; MAX_SECRET_BYTES]);
    bytes.truncate(n);
    bytes
}
