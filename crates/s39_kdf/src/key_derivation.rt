//! PBKDF2-HMAC-SHA256 (RFC 8018, section 5.2).
ghost use Rattle.std.specs.Prelude.{◌≡◌, ℕ, List, ◌≤◌, length};
ghost use Rattle.s39_kdf.specs.Bytes.{joined_parts, xor_of};
ghost use Rattle.s39_kdf.specs.Hmac.{hmac};
ghost use Rattle.s39_kdf.specs.PreparedKey.{HoldsKey};
ghost use Rattle.s39_kdf.specs.Pbkdf2.{iterate, block, pbkdf2, longest_derived_key};

use crate::keyed_hash::{MAC_BYTES, PreparedKey, absorb};
use sha2::Digest;

/// The most bytes that [`pbkdf2`] derives: two blocks of HMAC-SHA256, 64 bytes.
pub const MAX_DERIVED_BYTES: usize = 2 * MAC_BYTES;

/// Fills `out` with the key that PBKDF2-HMAC-SHA256 derives from a password and a salt (RFC 8018, section 5.2).
///
/// Password and salt are given as parts, which are joined in order. `iterations` must be at least 1, and `out` may have
/// 0 to [`MAX_DERIVED_BYTES`] bytes. A shorter key is the beginning of a longer one.
///
/// ```rust
/// let mut key = [0; 8];
/// pbkdf2(&[b"pass", b"wd"], &[b"salt"], 1, &mut key);
/// assert_eq!(rt; key, *b"\x55\xac\x04\x6e\x56\xe3\x08\x9f");
/// ```
#[tactic(auto, using(crate::proofs::Lengths::pbkdf2_one_block, crate::proofs::Lengths::pbkdf2_two_blocks))]
pub fn pbkdf2(password: &[&[u8]], salt: &[&[u8]], iterations: u32, out: &mut [u8])
    requires iterations { 1 ≤ iterations }
    requires two_blocks { length out.old ≤ longest_derived_key }
    ensures { out.new
        ≡ pbkdf2 (joined_parts password.now) (joined_parts salt.now) iterations (length out.old) }
{
    let key = PreparedKey::new(password);
    let first = block(&key, salt, 1, iterations);
    let len = out.len();
    if len <= MAC_BYTES {
        out.copy_from_slice(&first[..len]);
    } else {
        let second = block(&key, salt, 2, iterations);
        let (front, back) = out.split_at_mut(MAC_BYTES);
        front.copy_from_slice(&first);
        back.copy_from_slice(&second[..len - MAC_BYTES]);
    }
}

/// The block of this number: the xor of one HMAC for each iteration. Each HMAC is that of the one before it.
#[tactic(auto, using(crate::proofs::Lengths::block_one), unfolding(crate::specs::Pbkdf2::block, crate::specs::Pbkdf2::iterate))]
fn block(key: &PreparedKey, salt: &[&[u8]], number: u32, iterations: u32) -> [u8; MAC_BYTES]
    requires { 1 ≤ iterations }
    ensures { (password : List ℕ) → HoldsKey key.now password
        → result ≡ block password (joined_parts salt.now) number iterations }
{
    let mut iterate = first_iteration(key, salt, number);
    let mut sum = iterate;
    'iterations: for k in 1..iterations {
        iterate = next_iteration(key, &iterate);
        xor_into(&mut sum, &iterate);
    }
    sum
}

/// The HMAC of the salt and a block's number.
#[tactic(auto, unfolding(crate::specs::Pbkdf2::iterate))]
fn first_iteration(key: &PreparedKey, salt: &[&[u8]], number: u32) -> [u8; MAC_BYTES]
    ensures { (password : List ℕ) → HoldsKey key.now password
        → result ≡ iterate password (joined_parts salt.now) number 1 }
{
    let mut inner = key.begin();
    absorb(&mut inner, salt);
    inner.update(number.to_be_bytes());
    key.finish(inner)
}

/// The HMAC of the one before it.
fn next_iteration(key: &PreparedKey, before: &[u8; MAC_BYTES]) -> [u8; MAC_BYTES]
    ensures { (password : List ℕ) → HoldsKey key.now password → result ≡ hmac password before.now }
{
    let mut inner = key.begin();
    inner.update(before);
    key.finish(inner)
}

/// Xors the bytes into the sum.
fn xor_into(sum: &mut [u8; MAC_BYTES], bytes: &[u8; MAC_BYTES])
    ensures { sum.new ≡ xor_of sum.old bytes.now }
{
    'bytes: for i in 0..MAC_BYTES {
        sum[i] ^= bytes[i];
    }
}
