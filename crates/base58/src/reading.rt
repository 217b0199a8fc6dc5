//! Reading text back.
ghost use Rattle.std.specs.Prelude.{◌≡◌, ◌-◌, ◌<◌, ◌≤◌, length, map, take, MatchResult, Some, None};
ghost use Rattle.base58.specs.Base58.{digit_of, decoded};
ghost use Rattle.base58.specs.Reading.{first_bad_letter, payload_of, refusal_of};

use crate::conversion::{MAX_CONVERTED, converted};
use crate::letters::letter;
use crate::writing::{MAX_BYTES, MAX_PAYLOAD, MAX_TEXT, checksum};
use arrayvec::ArrayVec;

/// Why a text isn't read as Base58Check.
#[derive(Clone, Copy, Debug, PartialEq, Eq)]
pub enum Base58Error {
    /// The character at this position is none of the 58 letters.
    BadLetter { position: usize },
    /// The text writes too few bytes for a checksum, or more than 82.
    BadLength,
    /// The last four bytes aren't the checksum of the others.
    BadChecksum,
}

/// Reads bytes in Base58Check.
///
/// Just the texts of at most 78 bytes are read, each as its bytes (`laws::texts_are_read`).
pub fn read_base58check(text: &[u8]) -> Result<ArrayVec<u8, MAX_PAYLOAD>, Base58Error>
    ensures { MatchResult result
        (λ payload. (refusal_of text.now ≡ None) × (payload.items ≡ payload_of text.now))
        (λ error. refusal_of text.now ≡ Some error) }
{
    let position = first_bad_letter(text);
    if position < text.len() {
        return Err(Base58Error::BadLetter { position });
    }
    if text.len() > MAX_TEXT {
        return Err(Base58Error::BadLength);
    }
    let bytes = decoded(text);
    if bytes.len() < 4 || bytes.len() > MAX_BYTES {
        return Err(Base58Error::BadLength);
    }
    let (payload, sum) = bytes.split_at(bytes.len() - 4);
    if sum != checksum(payload).as_slice() {
        return Err(Base58Error::BadChecksum);
    }
    Ok(copied(payload))
}

fn copied(payload: &[u8]) -> ArrayVec<u8, MAX_PAYLOAD>
    requires { length payload.now ≤ MAX_PAYLOAD }
    ensures { result.items ≡ payload.now }
{
    let mut copy = ArrayVec::new();
    copy.try_extend_from_slice(payload).unwrap();
    copy
}

/// Where the first letter is that isn't of the alphabet, or the length of the text.
fn first_bad_letter(text: &[u8]) -> usize
    ensures { result ≡ first_bad_letter text.now }
{
    for i in 0..text.len() {
        if digit_of(text[i]) == 58 {
            return i;
        }
    }
    text.len()
}

/// The digit of a letter, or 58 if it is none's.
fn digit_of(character: u8) -> u8
    ensures digit { result ≡ digit_of character }
    ensures most { result ≤ 58 }
{
    for digit in 0..58u8 {
        if letter(digit) == character {
            return digit;
        }
    }
    58
}

/// The bytes that a text of letters writes.
fn decoded(text: &[u8]) -> ArrayVec<u8, MAX_CONVERTED>
    requires letters { length text.now ≤ first_bad_letter text.now }
    requires count { length text.now ≤ MAX_TEXT }
    ensures { result.items ≡ decoded text.now }
{
    converted::<58, 256>(&mut digits_of(text))
}

/// The digits of letters.
fn digits_of(text: &[u8]) -> ArrayVec<u8, MAX_TEXT>
    requires { length text.now ≤ MAX_TEXT }
    ensures { result.items ≡ map digit_of text.now }
{
    let mut digits = ArrayVec::new();
    for character in text {
        digits.push(digit_of(*character));
    }
    digits
}
