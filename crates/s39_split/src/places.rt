//! The constants of splitting and combining (SLIP-0039, "Shamir's secret sharing").

use s39_kdf::MAX_SECRET_BYTES;

/// The most shares of a split: share indices are 0 to 15.
pub const MAX_SHARES: usize = 16;

/// The place at which a split's polynomials take the bytes of the digest share, which is the digest of the secret
/// followed by its key. No share has this index.
pub const DIGEST_PLACE: u8 = 254;

/// The place at which a split's polynomials take the bytes of the secret. No share has this index.
pub const SECRET_PLACE: u8 = 255;

/// The length of a secret's digest in bytes.
pub const DIGEST_BYTES: usize = 4;

/// The most random bytes that a split takes: the key of the digest and 14 shares of 128 bytes.
pub const MAX_RANDOM_BYTES: usize = MAX_SECRET_BYTES - DIGEST_BYTES
    + (MAX_SHARES - 2) * MAX_SECRET_BYTES;
