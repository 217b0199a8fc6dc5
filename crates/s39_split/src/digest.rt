//! The digest of a secret, by which wrong shares are detected (SLIP-0039, "Shamir's secret sharing").
ghost use Rattle.std.specs.Prelude.{◌≡◌, ◌↔◌, ◌+◌, length, IsTrue};
ghost use Rattle.arrayvec.specs.ArrayVec.{array_vec_len};
ghost use Rattle.s39_split.specs.Sharing.{digest_length, digest_of, digest_share};
ghost use Rattle.s39_kdf.specs.Bytes.{AreBytes};

use crate::places::DIGEST_BYTES;
use s39_kdf::{Bytes, hmac};

/// The digest of a secret under a key.
pub(crate) fn digest_of(key: &[u8], secret: &[u8]) -> [u8; DIGEST_BYTES]
    ensures value { result ≡ digest_of key.now secret.now }
    ensures of_secret { AreBytes secret.now }
{
    let mac = hmac(&[key], &[secret]);
    [mac[0], mac[1], mac[2], mac[3]]
}

/// Whether two digests are equal. They are compared as numbers, in one step, so that the time doesn't tell which bytes
/// differ.
fn are_equal(a: [u8; DIGEST_BYTES], b: [u8; DIGEST_BYTES]) -> bool
    ensures { IsTrue result ↔ (a ≡ b) }
{
    u32::from_be_bytes(a) == u32::from_be_bytes(b)
}

/// Whether four bytes are the digest of a secret under a key.
pub(crate) fn is_digest(bytes: &[u8], key: &[u8], secret: &[u8]) -> bool
    requires { length bytes.now ≡ digest_length }
    ensures { IsTrue result ↔ (bytes.now ≡ digest_of key.now secret.now) }
{
    are_equal(
        [bytes[0], bytes[1], bytes[2], bytes[3]],
        digest_of(key, secret),
    )
}

/// The digest of the secret, followed by its key.
pub(crate) fn digest_share(key: &[u8], secret: &Bytes) -> Bytes
    requires { length key.now + digest_length ≡ array_vec_len secret.now }
    ensures value { result.items ≡ digest_share key.now secret.now.items }
    ensures len { array_vec_len result ≡ array_vec_len secret.now }
    ensures of_key { AreBytes key.now }
    ensures of_secret { AreBytes secret.now.items }
{
    let mut share = Bytes::new();
    share
        .try_extend_from_slice(&digest_of(key, secret.as_slice()))
        .unwrap();
    share.try_extend_from_slice(key).unwrap();
    share
}
