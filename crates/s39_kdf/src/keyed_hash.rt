//! HMAC-SHA256 (RFC 2104).
ghost use Rattle.std.specs.Prelude.{◌≡◌, ℕ, List, ◌++◌, map, bit_xor};
ghost use Rattle.sha2.specs.Sha256.{sha256};
ghost use Rattle.sha2.specs.Hashers.{Holds256};
ghost use Rattle.s39_kdf.specs.Bytes.{joined_parts};
ghost use Rattle.s39_kdf.specs.Hmac.{short_key, block_key, padded_with, inner_pad, hmac};
ghost use Rattle.s39_kdf.specs.PreparedKey.{HoldsKey};

use arrayvec::ArrayVec;
use sha2::{Digest, Sha256};

/// The length of an HMAC-SHA256 in bytes.
pub const MAC_BYTES: usize = 32;

/// The length of a block of SHA-256 in bytes.
pub(crate) const BLOCK_BYTES: usize = 64;

/// Returns the HMAC-SHA256 of a message under a key (RFC 2104, section 2).
///
/// Key and message are given as parts, which are joined in order. Both may have any length, and may be empty.
///
/// ```rust
/// let mac = hmac(&[b"Jefe"], &[b"what do ya want ", b"for nothing?"]);
/// assert_eq!(rt; &mac[..4], b"\x5b\xdc\xc1\x46".as_slice());
/// ```
pub fn hmac(key: &[&[u8]], message: &[&[u8]]) -> [u8; MAC_BYTES]
    ensures { result ≡ hmac (joined_parts key.now) (joined_parts message.now) }
{
    let key = PreparedKey::new(key);
    let mut inner = key.begin();
    absorb(&mut inner, message);
    key.finish(inner)
}

/// A key whose two padded blocks are already hashed, so an HMAC of a short message costs two
/// compressions.
#[derive(Drop)]
pub(crate) struct PreparedKey {
    inner: Sha256,
    outer: Sha256,
}

impl PreparedKey {
    /// Prepares the key that these parts make, joined in order.
    pub(crate) fn new(key: &[&[u8]]) -> PreparedKey
        ensures { HoldsKey result (joined_parts key.now) }
    {
        let block = block_key(key);
        PreparedKey {
            inner: Sha256::new_with_prefix(padded_with(0x36, &block)),
            outer: Sha256::new_with_prefix(padded_with(0x5c, &block)),
        }
    }

    /// Returns the hasher to which the message is added.
    pub(crate) fn begin(&self) -> Sha256
        ensures { (key : List ℕ) → HoldsKey self.now key → Holds256 result (inner_pad key) }
    {
        self.inner.clone().unwrap()
    }

    /// Returns the HMAC of the message that was added to a hasher of `begin`.
    #[tactic(auto, unfolding(crate::specs::Hmac::hmac))]
    pub(crate) fn finish(&self, inner: Sha256) -> [u8; MAC_BYTES]
        ensures { (key message : List ℕ) → HoldsKey self.now key
            → Holds256 inner (inner_pad key ++ message) → result ≡ hmac key message }
    {
        let mut outer = self.outer.clone().unwrap();
        outer.update(inner.finalize());
        outer.finalize()
    }
}

/// Adds the parts to the hasher's message.
pub(crate) fn absorb(hasher: &mut Sha256, parts: &[&[u8]])
    ensures { (m : List ℕ) → Holds256 hasher.old m
        → Holds256 hasher.new (m ++ joined_parts parts.now) }
{
    for part in parts {
        hasher.update(*part);
    }
}

/// The key in these parts, or its digest if it is longer than a block.
#[tactic(auto, using(crate::proofs::JoinedParts::joined_front_le))]
fn short_key(key: &[&[u8]]) -> ArrayVec<u8, BLOCK_BYTES>
    ensures { result.items ≡ short_key (joined_parts key.now) }
{
    let mut short = ArrayVec::new();
    for part in key {
        if short.try_extend_from_slice(part).is_err() {
            return digest_of(key);
        }
    }
    short
}

/// The SHA-256 of the parts, joined in order.
fn digest_of(parts: &[&[u8]]) -> ArrayVec<u8, BLOCK_BYTES>
    ensures { result.items ≡ sha256 (joined_parts parts.now) }
{
    let mut hasher = Sha256::new();
    absorb(&mut hasher, parts);
    let digest = hasher.finalize();
    let mut bytes = ArrayVec::new();
    bytes.try_extend_from_slice(&digest).unwrap();
    bytes
}

/// The key in these parts as a block: the short key, filled up with zeros.
fn block_key(key: &[&[u8]]) -> [u8; BLOCK_BYTES]
    ensures { result ≡ block_key (joined_parts key.now) }
{
    let mut block = short_key(key);
    let room = block.remaining_capacity();
    block
        .try_extend_from_slice(&[0; BLOCK_BYTES][..room])
        .unwrap();
    block.into_inner().unwrap()
}

/// A block with each byte xored with the pad.
fn padded_with(pad: u8, block: &[u8; BLOCK_BYTES]) -> [u8; BLOCK_BYTES]
    ensures { result ≡ padded_with pad block.now }
{
    let mut padded = *block;
    for byte in &mut padded {
        *byte ^= pad;
    }
    padded
}
