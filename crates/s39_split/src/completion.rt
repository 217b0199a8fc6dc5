//! Computing shares of a split from others (SLIP-0039, "Shamir's secret sharing").
ghost use Rattle.std.specs.Prelude.{◌≡◌, ◌⊎◌, ℕ, ◌<◌, ◌≤◌, Some, List, length, All, IsOkAnd, IfOk};
ghost use Rattle.std.specs.List.{slice_get};
ghost use Rattle.std.specs.Option.{option_map};
ghost use Rattle.std.specs.Result.{result_ok};
ghost use Rattle.arrayvec.specs.ArrayVec.{array_vec_len};
ghost use Rattle.s39_kdf.specs.Limits.{shortest_secret};
ghost use Rattle.s39_split.specs.Sharing.{most_shares, secret_place, IsSplit};
ghost use Rattle.s39_split.specs.Completion.{completed, ArePointsOf};
ghost use Rattle.s39_split.specs.Shares.{indexed_bytes, AreDistinct, HaveOneLength};

use crate::interpolation::interpolate;
use crate::recovery::{DigestMismatch, combine_points};
use s39_kdf::Bytes;

/// Computes the share at `index` of a split from `t` of its points (SLIP-0039, "Shamir's secret sharing"). If `t` is
/// the threshold of the split, any `t` of its points give each of its shares.
///
/// A point is a share with its index, 0 to 15, or the secret with its place, [`SECRET_PLACE`](crate::SECRET_PLACE).
/// There must be exactly `t` points, 1 to 16, at different places and of one length, from 16 to 128 bytes. They may
/// stand in any order.
///
/// The points are combined first, as by [`combine`](crate::combine). If they don't combine, the result is
/// [`DigestMismatch`]. Otherwise it is the byte string that they interpolate at `index`, which has their length.
///
/// ```rust
/// let secret = Bytes::try_from([7; 16].as_slice())?;
/// let mut shares: [Bytes; 3] = Default::default();
/// split(2, &secret, &[1; 12], &mut shares);
/// let share = complete(2, &[(0, &shares[0]), (SECRET_PLACE, &secret)], 2)?;
/// assert_eq!(rt; share, shares[2]);
/// ```
pub fn complete(t: u8, points: &[(u8, &Bytes)], index: u8) -> Result<Bytes, DigestMismatch>
    requires positive { 1 ≤ t }
    requires few { t ≤ most_shares }
    requires number { length points.now ≡ t }
    requires distinct { AreDistinct (indexed_bytes points.now) }
    requires places { All (λ point. (point.0 < most_shares) ⊎ (point.0 ≡ secret_place))
        (indexed_bytes points.now) }
    requires one_length { HaveOneLength (indexed_bytes points.now) }
    requires long { All (λ point. shortest_secret ≤ length point.1) (indexed_bytes points.now) }
    ensures completed { option_map (λ share. share.items) (result_ok result)
        ≡ completed (indexed_bytes points.now) index }
    ensures of_a_split { (count : ℕ) (secret random : List ℕ) (shares : List (List ℕ)) (share : List ℕ)
        → IsSplit t count secret random shares
        → ArePointsOf secret shares (indexed_bytes points.now) → slice_get shares index ≡ Some share
        → IsOkAnd result (λ found. found.items ≡ share) }
    ensures length { (n : ℕ) → All (λ point. length point.1 ≡ n) (indexed_bytes points.now)
        → IfOk result (λ share. array_vec_len share ≡ n) }
{
    combine_points(t, points)?;
    Ok(interpolate(points, index))
}
