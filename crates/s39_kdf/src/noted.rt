//! Fingerprints that the owners of secrets noted.
ghost use Rattle.std.specs.Prelude.{◌≡◌};
ghost use Rattle.s39_kdf.specs.Causes.{fingerprint_cause};
ghost use Rattle.s39_kdf.specs.Noted.{has_fingerprint, noted_in};

use crate::fingerprinting::{FINGERPRINT_BYTES, fingerprint};
use hex::FromHex;
use s39_refusal::{Cause, code};

/// The fingerprint of a secret, as the secret's owner noted it.
#[derive(Clone, Copy, Debug, PartialEq, Eq)]
pub struct NotedFingerprint {
    /// Its bytes (`fingerprint`).
    pub bytes: [u8; FINGERPRINT_BYTES],
}

impl NotedFingerprint {
    /// Returns whether a secret has this fingerprint.
    ///
    /// ```rust
    /// let noted = parse_fingerprint(b"df41d8fe")?;
    /// let secret = b"\xbb\x54\xaa\xc4\xb8\x9d\xc8\x68\xba\x37\xd9\xcc\x21\xb2\xce\xce";
    /// assert!(rt; noted.is_of(secret));
    /// assert!(rt; !noted.is_of(&[7; 16]));
    /// ```
    pub fn is_of(&self, secret: &[u8]) -> bool
        ensures { result ≡ has_fingerprint self.now secret.now }
    {
        fingerprint(secret) == self.bytes
    }
}

/// A text is not a fingerprint.
#[derive(Clone, Copy, Debug, PartialEq, Eq)]
pub struct BadFingerprint;

impl BadFingerprint {
    /// Returns the number of the refusal, 44.
    pub fn cause(&self) -> Cause
        ensures { result ≡ fingerprint_cause }
    {
        Cause::of(code::BAD_FINGERPRINT)
    }
}

/// The fingerprint that a text writes: eight hexadecimal digits in either case, two for each byte.
///
/// The error is returned if the text isn't eight such digits.
///
/// ```rust
/// let noted = parse_fingerprint(b"DF41d8fe")?;
/// assert_eq!(rt; noted.bytes, *b"\xdf\x41\xd8\xfe");
/// assert_eq!(rt; parse_fingerprint(b"df41d8f"), Err(BadFingerprint));
/// ```
pub fn parse_fingerprint(text: &[u8]) -> Result<NotedFingerprint, BadFingerprint>
    ensures { result ≡ noted_in text.now }
{
    match <[u8; FINGERPRINT_BYTES]>::from_hex(text) {
        Ok(bytes) => Ok(NotedFingerprint { bytes }),
        Err(_) => Err(BadFingerprint),
    }
}
