//! Combining shares (SLIP-0039, "Recovery of the secret").
ghost use Rattle.std.specs.Prelude.{◌≡◌, ℕ, ◌<◌, ◌≤◌, List, length, All, IsOkAnd, IfOk};
ghost use Rattle.std.specs.Option.{option_map};
ghost use Rattle.std.specs.Result.{result_ok};
ghost use Rattle.arrayvec.specs.ArrayVec.{array_vec_len};
ghost use Rattle.s39_kdf.specs.Limits.{shortest_secret};
ghost use Rattle.s39_split.specs.Mismatch.{mismatch_cause};
ghost use Rattle.s39_split.specs.Sharing.{most_shares, IsSplit};
ghost use Rattle.s39_split.specs.Recovery.{combined, AreSharesOf};
ghost use Rattle.s39_split.specs.Shares.{indexed_bytes, AreDistinct, HaveByteIndices, HaveOneLength};

use crate::digest::is_digest;
use crate::interpolation::interpolate;
use crate::laws::any_shares_combine;
use crate::places::{DIGEST_BYTES, DIGEST_PLACE, SECRET_PLACE};
use crate::sharing::copied;
use s39_kdf::Bytes;
use s39_refusal::{Cause, code};

/// The refusal of shares whose digest doesn't match their secret: a share is wrong, they aren't all shares of one
/// split, or `t` isn't the threshold of that split.
///
/// ```rust
/// let cause = DigestMismatch.cause(3);
/// assert_eq!(rt; (cause.code, cause.first), (51, 3));
/// ```
#[derive(Clone, Copy, PartialEq, Eq, Debug)]
pub struct DigestMismatch;

impl DigestMismatch {
    /// Returns what the refusal says: its number, which is 51, and the group as the first detail. The caller names the
    /// group whose member shares were combined, or passes `s39_refusal::code::OF_GROUPS` for group shares.
    pub fn cause(&self, group: u64) -> Cause
        ensures { result ≡ mismatch_cause group }
    {
        Cause::new(code::DIGEST_MISMATCH, group, 0)
    }
}

/// Recovers the secret of a split from `t` of its shares (SLIP-0039, "Recovery of the secret"). If `t` is the threshold
/// of the split, any `t` of its shares give its secret.
///
/// A share is its index, 0 to 15, and its bytes. There must be exactly `t` shares, 1 to 16, with different indices and
/// of one length, from 16 to 128 bytes. They may stand in any order. The secret has their length.
///
/// If `t` is 1, the secret is the share itself, and nothing can be checked. Otherwise the result is [`DigestMismatch`]
/// if and only if the digest that the shares give isn't that of the secret that they give.
///
/// ```rust
/// let secret = Bytes::try_from([7; 16].as_slice())?;
/// let mut shares: [Bytes; 3] = Default::default();
/// split(2, &secret, &[1; 12], &mut shares);
/// let recovered = combine(2, &[(0, &shares[0]), (2, &shares[2])]);
/// assert_eq!(rt; recovered, Ok(secret));
/// let refused = combine(2, &[(1, &shares[0]), (2, &shares[2])]);
/// assert_eq!(rt; refused, Err(DigestMismatch));
/// ```
pub fn combine(t: u8, shares: &[(u8, &Bytes)]) -> Result<Bytes, DigestMismatch>
    requires positive { 1 ≤ t }
    requires number { length shares.now ≡ t }
    requires distinct { AreDistinct (indexed_bytes shares.now) }
    requires indices { All (λ share. share.0 < most_shares) (indexed_bytes shares.now) }
    requires one_length { HaveOneLength (indexed_bytes shares.now) }
    requires long { All (λ share. shortest_secret ≤ length share.1) (indexed_bytes shares.now) }
    ensures combined { option_map (λ secret. secret.items) (result_ok result)
        ≡ combined (indexed_bytes shares.now) }
    ensures of_a_split { (count : ℕ) (secret random : List ℕ) (all_shares : List (List ℕ))
        → IsSplit t count secret random all_shares
        → AreSharesOf all_shares (indexed_bytes shares.now)
        → IsOkAnd result (λ found. found.items ≡ secret) }
    ensures length { (n : ℕ) → All (λ share. length share.1 ≡ n) (indexed_bytes shares.now)
        → IfOk result (λ secret. array_vec_len secret ≡ n) }
{
    any_shares_combine();
    combine_points(t, shares)
}

/// Combines points, each of which is a share with its index or the secret with its place. They are as many as the
/// threshold `t`.
pub(crate) fn combine_points(t: u8, points: &[(u8, &Bytes)]) -> Result<Bytes, DigestMismatch>
    requires positive { 1 ≤ t }
    requires few { t ≤ most_shares }
    requires number { length points.now ≡ t }
    requires distinct { AreDistinct (indexed_bytes points.now) }
    requires places { HaveByteIndices (indexed_bytes points.now) }
    requires one_length { HaveOneLength (indexed_bytes points.now) }
    requires long { All (λ point. shortest_secret ≤ length point.1) (indexed_bytes points.now) }
    ensures combined { option_map (λ secret. secret.items) (result_ok result)
        ≡ combined (indexed_bytes points.now) }
    ensures length { (n : ℕ) → All (λ point. length point.1 ≡ n) (indexed_bytes points.now)
        → IfOk result (λ secret. array_vec_len secret ≡ n) }
{
    if t == 1 {
        return Ok(copied(points[0].1));
    }
    let secret = interpolate(points, SECRET_PLACE);
    let digest_share = interpolate(points, DIGEST_PLACE);
    let (digest, key) = digest_share.split_at(DIGEST_BYTES);
    if is_digest(digest, key, &secret) {
        Ok(secret)
    } else {
        Err(DigestMismatch)
    }
}
