//! Laws of splitting and combining. Each is proved as the contract of a function that does nothing.
ghost use Rattle.std.specs.Prelude.{◌≡◌};
ghost use Rattle.s39_split.specs.Sharing.{most_shares, digest_place, secret_place, digest_length, most_random_bytes};
ghost use Rattle.s39_split.specs.Sharing.{SplitsTakeTheBytesNeeded, SharesAreAsLong, SharesAreBytes, HaveASplit, HaveOneSplit, FirstSharesAreASplit};
ghost use Rattle.s39_split.specs.Completion.{AnyPointsComplete, PointsComplete, PointsCompleteOnce, SharesArePoints};
ghost use Rattle.s39_split.specs.Recovery.{AnySharesCombine, SharesCombine, SharesCombineOnce, SecretsAreLikeTheirShares};

use crate::places::{DIGEST_BYTES, DIGEST_PLACE, MAX_RANDOM_BYTES, MAX_SHARES, SECRET_PLACE};

/// The constants of the code equal the numbers of the definitions.
pub fn numbers()
    ensures shares { MAX_SHARES ≡ most_shares }
    ensures digest { DIGEST_PLACE ≡ digest_place }
    ensures secret { SECRET_PLACE ≡ secret_place }
    ensures digest_length { DIGEST_BYTES ≡ digest_length }
    ensures random { MAX_RANDOM_BYTES ≡ most_random_bytes }
{}

/// A split takes as many random bytes as `random_needed` says.
pub fn needed_random_bytes()
    ensures { SplitsTakeTheBytesNeeded }
{}

/// The shares of a split are as long as the secret, and consist of bytes if the secret and the random
/// bytes do.
pub fn shares_of_a_split()
    ensures length { SharesAreAsLong }
    ensures bytes { SharesAreBytes }
{}

/// For a threshold of at least 1, a number of shares from the threshold to 16, a secret of at least 4 bytes, and
/// as many random bytes as `random_needed` says, there is exactly one split.
pub fn one_split()
    ensures some { HaveASplit }
    ensures one { HaveOneSplit }
{}

/// The first shares of a split, if they are at least as many as its threshold, are themselves the split into that
/// many shares.
pub fn first_shares()
    ensures { FirstSharesAreASplit }
{}

/// Any `threshold` shares of a split, in any order, combine to its secret and to nothing else.
pub fn any_shares_combine()
    ensures { AnySharesCombine }
{}

/// Shares combine to what `combined` computes, a secret or a refusal, if they have different indices and one length and
/// are as many as the threshold, at least one.
pub fn shares_combine()
    ensures { SharesCombine }
{}

/// Shares with different indices combine to at most one outcome, which is what `combined` computes.
pub fn shares_combine_once()
    ensures { SharesCombineOnce }
{}

/// The secret to which shares combine is as long as they are, and consists of bytes if they do.
pub fn secrets_are_like_their_shares()
    ensures { SecretsAreLikeTheirShares }
{}

/// Any `threshold` points of a split, in any order, complete to each of its shares and to nothing else. A point is a
/// share or the secret.
pub fn any_points_complete()
    ensures { AnyPointsComplete }
{}

/// Points of bytes complete to what `completed` computes if they have different places and one length and are as many as
/// the threshold, at least one. Points at different places complete to at most one outcome, which is that one.
pub fn points_complete()
    ensures some { PointsComplete }
    ensures one { PointsCompleteOnce }
{}

/// Shares of a split, in any order, are points of it, and they still are together with the secret at its place.
pub fn shares_are_points()
    ensures { SharesArePoints }
{}
