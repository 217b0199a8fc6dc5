//! The text of bytes.
ghost use Rattle.std.specs.Prelude.{◌≡◌, ◌<◌, ◌≤◌, ◌++◌, length, map, All};
ghost use Rattle.base58.specs.Base58.{letter, checksum, base58check};

use crate::conversion::converted;
use crate::letters::letter;
use arrayvec::ArrayVec;
use hashes::double_sha256;

/// The most bytes that are written: those of an extended key (BIP-32).
pub const MAX_PAYLOAD: usize = 78;

/// The most bytes with their checksum.
pub(crate) const MAX_BYTES: usize = 82;

/// The most characters of a text.
pub const MAX_TEXT: usize = 112;

/// Returns the bytes in Base58Check. No branch and no address depends on them, but for those that count the zeros that come first, and the
/// digits of the number.
pub fn base58check(payload: &[u8]) -> ArrayVec<u8, MAX_TEXT>
    requires { length payload.now ≤ MAX_PAYLOAD }
    ensures { result.items ≡ base58check payload.now }
{
    letters_of(&converted::<256, 58>(&mut with_checksum(payload)))
}

/// The bytes and their checksum.
fn with_checksum(payload: &[u8]) -> ArrayVec<u8, MAX_BYTES>
    requires { length payload.now ≤ MAX_PAYLOAD }
    ensures items { result.items ≡ payload.now ++ checksum payload.now }
    ensures bytes { All (λ b. b < 256) result.items }
{
    let mut bytes = ArrayVec::new();
    bytes.try_extend_from_slice(payload).unwrap();
    bytes.try_extend_from_slice(&checksum(payload)).unwrap();
    bytes
}

/// The first four bytes of the double SHA-256.
pub(crate) fn checksum(payload: &[u8]) -> [u8; 4]
    ensures { result ≡ checksum payload.now }
{
    let [a, b, c, d, ..] = double_sha256(payload);
    [a, b, c, d]
}

/// The letters of digits.
fn letters_of(digits: &[u8]) -> ArrayVec<u8, MAX_TEXT>
    requires count { length digits.now ≤ MAX_TEXT }
    requires below { All (λ d. d < 58) digits.now }
    ensures { result.items ≡ map letter digits.now }
{
    let mut text = ArrayVec::new();
    for digit in digits {
        text.push(letter(*digit));
    }
    text
}
