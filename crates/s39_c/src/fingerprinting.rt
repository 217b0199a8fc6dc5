//! The call that computes a fingerprint.
ghost use Rattle.std.specs.Prelude.{◌≡◌};
ghost use Rattle.hex.specs.Hex.{encode_lower};
ghost use Rattle.s39_kdf.specs.Fingerprint.{fingerprint_of};
ghost use Rattle.s39_c.specs.Fingerprinting.{GivesFingerprint};

use crate::answer::ShamirAnswer;
use crate::clearing::FINGERPRINT;
use crate::lengths::FINGERPRINT_BYTES_MAX;
use crate::memory::give;
use s39_clearing::clear_stack;
use s39_input::{Fault, write_hex};
use s39_kdf::{check_secret_length, fingerprint};

/// Computes the fingerprint of a master secret, by which its owner can recognise the secret without seeing it. The
/// fingerprint is the first four bytes of the HMAC-SHA256 of the secret with the key `shamir fingerprint`, in eight
/// lower-case hexadecimal digits. They go to the start of `text`; `written` is 8, and the bytes after them are
/// unchanged.
///
/// The call refuses with the first of these that applies, and `text` is then unchanged: 42 (the length of the secret),
/// 1 (`text` is too short).
///
/// ```c
/// char text[SHAMIR_FINGERPRINT_BYTES_MAX];
/// shamir_answer answer = shamir_fingerprint(secret, 16, text, sizeof text);
/// ```
#[unsafe(no_mangle)]
pub extern "C" fn shamir_fingerprint(secret: &[u8], text: &mut [u8]) -> ShamirAnswer
    ensures { GivesFingerprint secret.now text.old text.new result }
{
    let answer = fingerprint_answer(secret, text);
    let _ = clear_stack::<FINGERPRINT>();
    answer
}

/// The answer of `shamir_fingerprint`.
#[inline(never)]
fn fingerprint_answer(secret: &[u8], text: &mut [u8]) -> ShamirAnswer
    ensures { GivesFingerprint secret.now text.old text.new result }
{
    match check_secret_length(secret.len()) {
        Ok(()) => give(&fingerprint_digits(secret), text),
        Err(bad) => ShamirAnswer::from(Fault::from(bad)),
    }
}

/// The hexadecimal digits of the fingerprint of a secret.
fn fingerprint_digits(secret: &[u8]) -> [u8; FINGERPRINT_BYTES_MAX]
    ensures { result ≡ encode_lower (fingerprint_of secret.now) }
{
    let four = fingerprint(secret);
    let mut digits = [0; FINGERPRINT_BYTES_MAX];
    write_hex(&four, &mut digits);
    digits
}
