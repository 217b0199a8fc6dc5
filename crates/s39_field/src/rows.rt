//! Rows of bytes: one element times each byte, sixteen bytes at a time.

ghost use Rattle.std.specs.Prelude.{◌≡◌, ◌<◌, ◌≤◌, ◌+◌, ℕ, length, map, EachIndex, slice_index};
ghost use Rattle.s39_field.specs.FieldProduct.{byte_field};

use crate::byte::Gf256;
use crate::operations::Field;
use std::simd::prelude::*;

/// The number of bytes in a vector.
const LANES: usize = 16;

/// The element that equals `x^8` in the field: `x^4 + x^3 + x + 1`.
const REDUCED: u8 = 0x1B;

/// The product of `x` and each lane.
fn doubled_lanes(row: u8x16) -> u8x16
    ensures { result ≡ map (λ a. byte_field.mul a 2) row }
{
    let carries = u8x16::splat(0) - (row >> 7);
    (row << 1) ^ (carries & u8x16::splat(REDUCED))
}

/// Multiplies each of sixteen bytes by `w`: returns the products in the field of 256 elements, in the
/// order of the lanes.
///
/// ```rust
/// let products = lanes(Gf256::from(0x57), u8x16::splat(0x83));
/// assert_eq!(rt; products.to_array(), [0xC1; 16]);
/// ```
pub fn lanes(w: Gf256, row: u8x16) -> u8x16
    ensures { result ≡ map (byte_field.mul w) row }
{
    let mut sum = u8x16::splat(0);
    let mut shifted = u8x16::splat(u8::from(w));
    let mut rest = row;
    for _ in 0..u8::BITS {
        let taken = u8x16::splat(0) - (rest & u8x16::splat(1));
        sum ^= shifted & taken;
        shifted = doubled_lanes(shifted);
        rest = rest >> 1;
    }
    sum
}

/// The product of `w` and one byte, by the steps of `lanes`.
fn lane(w: Gf256, byte: u8) -> u8
    ensures { result ≡ byte_field.mul w byte }
{
    lanes(w, u8x16::splat(byte)).to_array()[0]
}

/// Adds `w` times a row to another as far as the row fills whole vectors, and returns how many bytes
/// these have.
fn scaled_sum_of_vectors(acc: &mut [u8], w: Gf256, row: &[u8]) -> usize
    requires { length acc.old ≡ length row.now }
    ensures within { result ≤ length acc.old }
    ensures whole { length acc.old < result + LANES }
    ensures same_length { length acc.new ≡ length acc.old }
    ensures summed { (k : ℕ) → k < result → slice_index acc.new k
        ≡ byte_field.add (slice_index acc.old k) (byte_field.mul w (slice_index row.now k)) }
    ensures others { (k : ℕ) → result ≤ k → slice_index acc.new k ≡ slice_index acc.old k }
{
    let mut done = 0;
    while acc.len() - done >= LANES {
        let product = lanes(w, u8x16::from_slice(&row[done..]));
        let sum = u8x16::from_slice(&acc[done..]) ^ product;
        sum.copy_to_slice(&mut acc[done..]);
        done += LANES;
    }
    done
}

/// Adds `w` times a row of bytes to another row, in the field of 256 elements: each `acc[k]` becomes
/// `acc[k] + w * row[k]`. Both rows must have the same length, and may be empty.
///
/// ```rust
/// let mut sums = [0x00, 0xFF, 0xC1];
/// scaled_sum(&mut sums, Gf256::from(0x57), &[0x83; 3]);
/// assert_eq!(rt; sums, [0xC1, 0x3E, 0x00]);
/// ```
pub fn scaled_sum(acc: &mut [u8], w: Gf256, row: &[u8])
    requires { length acc.old ≡ length row.now }
    ensures { EachIndex acc.old (λ k. slice_index acc.new k
        ≡ byte_field.add (slice_index acc.old k) (byte_field.mul w (slice_index row.now k))) }
{
    let done = scaled_sum_of_vectors(acc, w, row);
    for k in done..acc.len() {
        acc[k] = u8::from(Gf256::from(acc[k]).add(Gf256::from(lane(w, row[k]))));
    }
}
