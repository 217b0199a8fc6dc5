//! The fingerprint of a secret.
ghost use Rattle.std.specs.Prelude.{◌≡◌};
ghost use Rattle.s39_kdf.specs.Fingerprint.{fingerprint_of};

use crate::keyed_hash::hmac;

/// The length of a fingerprint, in bytes.
pub const FINGERPRINT_BYTES: usize = 4;

/// Returns the fingerprint of a secret of any length: the first four bytes of its HMAC-SHA256 (RFC 2104) under the key
/// `shamir fingerprint`. The definition is this program's own, and not part of SLIP-0039.
///
/// A noted fingerprint identifies a secret without showing it: another secret has the same fingerprint in one case of
/// 4,294,967,296. Whoever has it can test guesses of the secret with it, with the same chance of an error.
///
/// ```rust
/// let secret = b"\xbb\x54\xaa\xc4\xb8\x9d\xc8\x68\xba\x37\xd9\xcc\x21\xb2\xce\xce";
/// assert_eq!(rt; fingerprint(secret), *b"\xdf\x41\xd8\xfe");
/// ```
pub fn fingerprint(secret: &[u8]) -> [u8; FINGERPRINT_BYTES]
    ensures { result ≡ fingerprint_of secret.now }
{
    let mac = hmac(&[b"shamir fingerprint"], &[secret]);
    [mac[0], mac[1], mac[2], mac[3]]
}
