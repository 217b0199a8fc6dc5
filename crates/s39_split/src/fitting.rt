//! The random bytes by which a split has known shares.
ghost use Rattle.std.specs.Prelude.{◌≡◌, ℕ, ◌+◌, ◌<◌, ◌≤◌, List, ◌∷◌, [], ◌++◌, length, All};
ghost use Rattle.arrayvec.specs.ArrayVec.{array_vec_len};
ghost use Rattle.s39_kdf.specs.Limits.{shortest_secret};
ghost use Rattle.s39_split.specs.Sharing.{most_shares, digest_place, secret_place, digest_length, random_needed};
ghost use Rattle.s39_split.specs.Shares.{indexed_bytes, AreDistinct};
ghost use Rattle.s39_split.specs.Fitting.{Fits};

use crate::digest::digest_share;
use crate::interpolation::interpolate;
use crate::lent_points::Points;
use crate::places::{DIGEST_PLACE, MAX_RANDOM_BYTES, SECRET_PLACE};
use arrayvec::ArrayVec;
use s39_kdf::Bytes;

/// Returns random bytes that begin with `r`: the only ones with which [`split`](crate::split) gives the known shares,
/// if it splits into 16 shares at threshold `t` (2 to 16).
///
/// Such bytes exist for every secret. So the known shares, which are two fewer than the threshold, fit every secret of
/// their length.
///
/// The secret must have 16 to 128 bytes, and `r`, the key of its digest, must have 4 bytes fewer. There must be exactly
/// `t - 2` known shares with different indices, 0 to 15, each as long as the secret. The result has as many bytes as
/// [`random_needed`](crate::random_needed) says.
///
/// ```rust
/// let secret = Bytes::try_from([7; 16].as_slice())?;
/// let share = Bytes::try_from([9; 16].as_slice())?;
/// let random = fit(3, &secret, &[1; 12], &[(5, &share)]);
/// let mut shares: [Bytes; 16] = Default::default();
/// split(3, &secret, &random, &mut shares);
/// assert_eq!(rt; shares[5], share);
/// ```
pub fn fit(
    t: u8,
    secret: &Bytes,
    r: &[u8],
    known: &[(u8, &Bytes)],
) -> ArrayVec<u8, MAX_RANDOM_BYTES>
    requires several { 2 ≤ t }
    requires few { t ≤ most_shares }
    requires long { shortest_secret ≤ array_vec_len secret.now }
    requires key { length r.now + digest_length ≡ array_vec_len secret.now }
    requires number { length known.now + 2 ≡ t }
    requires distinct { AreDistinct (indexed_bytes known.now) }
    requires indices { All (λ share. share.0 < most_shares) (indexed_bytes known.now) }
    requires one_length { All (λ share. length share.1 ≡ array_vec_len secret.now)
        (indexed_bytes known.now) }
    ensures fits { Fits t secret.now.items r.now (indexed_bytes known.now) result.items }
    ensures only { (random : List ℕ)
        → Fits t secret.now.items r.now (indexed_bytes known.now) random
        → random ≡ result.items }
    ensures length { array_vec_len result ≡ random_needed t (array_vec_len secret.now) }
{
    let digest_share = digest_share(r, secret);
    let points = points_of(known, &digest_share, secret);
    let points = points.as_slice();
    let mut random = ArrayVec::new();
    random.try_extend_from_slice(r).unwrap();
    for place in 0..t - 2 {
        let share = interpolate(points, place);
        random.try_extend_from_slice(&share).unwrap();
    }
    random
}

/// Lists the known shares, then the digest share and the secret.
fn points_of<'a, 'k: 'a>(
    known: &[(u8, &'k Bytes)],
    digest_share: &'a Bytes,
    secret: &'a Bytes,
) -> Points<'a>
    requires { length known.now + 2 ≤ most_shares }
    ensures { result ≡ indexed_bytes known.now ++ (digest_place, digest_share.now.items)
        ∷ (secret_place, secret.now.items) ∷ [] }
{
    let mut points = Points::new();
    for share in known {
        points.push(share.0, share.1);
    }
    points.push(DIGEST_PLACE, digest_share);
    points.push(SECRET_PLACE, secret);
    points
}
