//! HMAC-SHA512 (RFC 2104).
ghost use Rattle.std.specs.Prelude.{◌≡◌, ℕ, List, ◌++◌, map, bit_xor};
ghost use Rattle.sha2.specs.Sha512.{sha512};
ghost use Rattle.sha2.specs.Hashers.{Holds512};
ghost use Rattle.s39_kdf.specs.Bytes.{joined_parts};
ghost use Rattle.s39_kdf.specs.Hmac.{padded_with};
ghost use Rattle.hashes.specs.Hmac.{short_key, block_key, inner_pad, hmac_sha512};

use arrayvec::ArrayVec;
use sha2::{Digest, Sha512};

/// The length of an HMAC-SHA512 in bytes.
pub const MAC_BYTES: usize = 64;

/// The length of a block of SHA-512 in bytes.
const BLOCK_BYTES: usize = 128;

/// Returns the HMAC-SHA512 of a message under a key (RFC 2104, section 2).
///
/// Key and message are given as parts, which are joined in order. Both may have any length, and may be empty.
#[tactic(auto, unfolding(crate::specs::Hmac::hmac_sha512))]
pub fn hmac_sha512(key: &[&[u8]], message: &[&[u8]]) -> [u8; MAC_BYTES]
    ensures { result ≡ hmac_sha512 (joined_parts key.now) (joined_parts message.now) }
{
    let block = block_key(key);
    let mut inner = Sha512::new_with_prefix(padded_with(0x36, &block));
    absorb(&mut inner, message);
    let mut outer = Sha512::new_with_prefix(padded_with(0x5c, &block));
    outer.update(inner.finalize());
    outer.finalize()
}

/// Adds the parts to the hasher's message.
fn absorb(hasher: &mut Sha512, parts: &[&[u8]])
    ensures { (m : List ℕ) → Holds512 hasher.old m
        → Holds512 hasher.new (m ++ joined_parts parts.now) }
{
    for part in parts {
        hasher.update(*part);
    }
}

/// The key in these parts, or its digest if it is longer than a block.
#[tactic(auto, using(s39_kdf::proofs::JoinedParts::joined_front_le))]
fn short_key(key: &[&[u8]]) -> ArrayVec<u8, BLOCK_BYTES>
    ensures { result.items ≡ short_key (joined_parts key.now) }
{
    let mut short = ArrayVec::new();
    for part in key {
        if short.try_extend_from_slice(part).is_err() {
            return digest_of(key);
        }
    }
    short
}

/// The SHA-512 of the parts, joined in order.
fn digest_of(parts: &[&[u8]]) -> ArrayVec<u8, BLOCK_BYTES>
    ensures { result.items ≡ sha512 (joined_parts parts.now) }
{
    let mut hasher = Sha512::new();
    absorb(&mut hasher, parts);
    let digest = hasher.finalize();
    let mut bytes = ArrayVec::new();
    bytes.try_extend_from_slice(&digest).unwrap();
    bytes
}

/// The key in these parts as a block: the short key, filled up with zeros.
fn block_key(key: &[&[u8]]) -> [u8; BLOCK_BYTES]
    ensures { result ≡ block_key (joined_parts key.now) }
{
    let mut block = short_key(key);
    let room = block.remaining_capacity();
    block
        .try_extend_from_slice(&[0; BLOCK_BYTES][..room])
        .unwrap();
    block.into_inner().unwrap()
}

/// A block with each byte xored with the pad.
fn padded_with(pad: u8, block: &[u8; BLOCK_BYTES]) -> [u8; BLOCK_BYTES]
    ensures { result ≡ padded_with pad block.now }
{
    let mut padded = *block;
    for byte in &mut padded {
        *byte ^= pad;
    }
    padded
}
