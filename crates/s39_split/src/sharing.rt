//! Splitting a secret (SLIP-0039, "Sharing a secret").
ghost use Rattle.std.specs.Prelude.{◌≡◌, ℕ, ◌+◌, ◌-◌, ◌*◌, ◌<◌, ◌≤◌, List, Some, length, All, EachIndex};
ghost use Rattle.s39_field.specs.Interpolation.{InterpolatesBytes};
ghost use Rattle.std.specs.List.{concat, slice_get};
ghost use Rattle.arrayvec.specs.ArrayVec.{array_vec_len};
ghost use Rattle.s39_split.specs.Sharing.{most_shares, digest_length, random_needed, base_points, IsSplit};
ghost use Rattle.s39_kdf.specs.Limits.{shortest_secret, longest_secret};
ghost use Rattle.s39_split.specs.Shares.{bytes_of, indexed_bytes, AreDistinct};

use crate::digest::digest_share;
use crate::interpolation::interpolate;
use crate::lent_points::Points;
use crate::places::{DIGEST_BYTES, DIGEST_PLACE, SECRET_PLACE};
use s39_kdf::Bytes;

/// Returns how many random bytes [`split`] takes for a secret of `n_bytes` bytes, from 16 to 128, at threshold `t`,
/// from 1 to 16.
///
/// At threshold 1 it takes none. Otherwise it takes `n_bytes - 4` for the key of the digest and `n_bytes` for each of
/// the shares 0 to `t - 3`.
///
/// ```rust
/// assert_eq!(rt; random_needed(1, 16), 0);
/// assert_eq!(rt; random_needed(2, 16), 12);
/// assert_eq!(rt; random_needed(16, 128), MAX_RANDOM_BYTES);
/// ```
pub fn random_needed(t: u8, n_bytes: usize) -> usize
    requires positive { 1 ≤ t }
    requires few { t ≤ most_shares }
    requires long { shortest_secret ≤ n_bytes }
    requires fits { n_bytes ≤ longest_secret }
    ensures { result ≡ random_needed t n_bytes }
{
    if t == 1 {
        0
    } else {
        n_bytes - DIGEST_BYTES + (usize::from(t) - 2) * n_bytes
    }
}

/// Splits a secret of 16 to 128 bytes into as many shares as `out` has elements; any `t` of them recover it (SLIP-0039,
/// "Sharing a secret"). The threshold `t` must be 1 to 16, and `out` must have `t` to 16 elements.
///
/// What `out` held before doesn't matter. The share with index `i` becomes `out[i]`, and is as long as the secret.
///
/// `random` must have exactly as many bytes as [`random_needed`] says: first the key of the digest, which is 4 bytes
/// shorter than the secret, then the shares 0 to `t - 3`. At threshold 1 there are none, and every share is the secret.
/// The bytes must be unpredictable; those of the examples are fixed so that results can be compared.
///
/// ```rust
/// let secret = Bytes::try_from([7; 16].as_slice())?;
/// let mut shares: [Bytes; 3] = Default::default();
/// split(2, &secret, &[1; 12], &mut shares);
/// assert_eq!(rt; &shares[2][..4], b"\x7e\x99\xa2\x88".as_slice());
/// ```
pub fn split(t: u8, secret: &Bytes, random: &[u8], out: &mut [Bytes])
    requires positive { 1 ≤ t }
    requires enough { t ≤ length out.old }
    requires few { length out.old ≤ most_shares }
    requires long { shortest_secret ≤ array_vec_len secret.now }
    requires random { length random.now ≡ random_needed t (array_vec_len secret.now) }
    ensures shares { IsSplit t (length out.old) secret.now.items random.now (bytes_of out.new) }
    ensures length { All (λ share. array_vec_len share ≡ array_vec_len secret.now) out.new }
{
    if t == 1 {
        fill(out, secret);
    } else {
        split_several(t, secret, random, out);
    }
}

/// Each share becomes the secret.
fn fill(out: &mut [Bytes], secret: &Bytes)
    ensures { All (λ share. share.items ≡ secret.now.items) out.new }
{
    for share in out.iter_mut() {
        *share = copied(secret);
    }
}

/// Copies bytes, without an allocation.
pub(crate) fn copied(bytes: &Bytes) -> Bytes
    ensures { result.items ≡ bytes.now.items }
{
    Bytes::try_from(bytes.as_slice()).unwrap()
}

/// Splits a secret at a threshold of two or more.
fn split_several(t: u8, secret: &Bytes, random: &[u8], out: &mut [Bytes])
    requires several { 2 ≤ t }
    requires enough { t ≤ length out.old }
    requires few { length out.old ≤ most_shares }
    requires long { shortest_secret ≤ array_vec_len secret.now }
    requires random { length random.now ≡ random_needed t (array_vec_len secret.now) }
    ensures { IsSplit t (length out.old) secret.now.items random.now (bytes_of out.new) }
{
    let (key, random_bytes) = random.split_at(secret.len() - DIGEST_BYTES);
    let (random_shares, other_shares) = out.split_at_mut(usize::from(t) - 2);
    cut(random_bytes, secret.len(), random_shares);
    let digest_share = digest_share(key, secret);
    let points = base_points(random_shares, &digest_share, secret);
    interpolate_from(t - 2, points.as_slice(), other_shares);
}

/// The shares become what the points interpolate at `first` and the places after it.
fn interpolate_from(first: u8, points: &[(u8, &Bytes)], shares: &mut [Bytes])
    requires some { 0 < length points.now }
    requires few { length points.now ≤ most_shares }
    requires few_shares { first + length shares.old ≤ most_shares }
    requires distinct { AreDistinct (indexed_bytes points.now) }
    requires one_length { (n : ℕ) × All (λ point. length point.1 ≡ n) (indexed_bytes points.now) }
    ensures { EachIndex shares.new (λ k. (share : List ℕ)
        → slice_get (bytes_of shares.new) k ≡ Some share
        → InterpolatesBytes (indexed_bytes points.now) (first + k) share) }
{
    for (i, share) in shares.iter_mut().enumerate() {
        *share = interpolate(points, first + i as u8);
    }
}

/// Cuts bytes into shares of `n` bytes.
fn cut(bytes: &[u8], n: usize, shares: &mut [Bytes])
    requires fits { n ≤ longest_secret }
    requires length { length bytes.now ≡ length shares.old * n }
    ensures whole { bytes.now ≡ concat (bytes_of shares.new) }
    ensures length { All (λ share. array_vec_len share ≡ n) shares.new }
{
    for (i, share) in shares.iter_mut().enumerate() {
        *share = Bytes::try_from(&bytes[i * n..(i + 1) * n]).unwrap();
    }
}

/// Lists the points from which a split makes its shares.
fn base_points<'a>(
    random_shares: &'a [Bytes],
    digest_share: &'a Bytes,
    secret: &'a Bytes,
) -> Points<'a>
    requires { length random_shares.now + 2 ≤ most_shares }
    ensures { result
        ≡ base_points (bytes_of random_shares.now) digest_share.now.items secret.now.items }
{
    let mut points = Points::new();
    for (i, share) in random_shares.iter().enumerate() {
        points.push(i as u8, share);
    }
    points.push(DIGEST_PLACE, digest_share);
    points.push(SECRET_PLACE, secret);
    points
}
