//! The call that decrypts an encrypted secret.
ghost use Rattle.s39_reading.specs.Encrypted.{IsDecryption};
ghost use Rattle.s39_c.specs.Encrypted.{AreParameters, GivesDecrypted, GivesDecryption};
ghost use Rattle.s39_c.specs.Recovering.{GivesExpectedSecret};

use crate::answer::ShamirAnswer;
use crate::clearing::DECRYPT;
use crate::encrypted::ShamirParameters;
use crate::expected::expected_in;
use crate::memory::give;
use s39_clearing::clear_stack;
use s39_kdf::{MAX_EXPONENT, NotedFingerprint, Params};
use s39_reading::decrypt_secret;

/// The greatest identifier, which has 15 bits.
const MAX_ID: u16 = 32_767;

/// Decrypts an encrypted secret with a passphrase. `parameters` and `encrypted` are what `shamir_encrypted` gave. The
/// secret goes to the start of `secret`, and `written` is its length, which is that of `encrypted`. The bytes after it are
/// unchanged. `expected` is empty or the fingerprint of the secret, as for `shamir_recover`.
///
/// The call refuses with the first of these that applies, and `secret` is then unchanged:
///
/// - 2, if a number of the parameters is out of its range;
/// - 44 (`expected` is neither empty nor a fingerprint), 41 (the passphrase);
/// - 42, if `encrypted` has a length that no secret has;
/// - 52 (the secret has another fingerprint);
/// - 1, if `secret` is too short. The call notices 52 and 1 only after the iterations.
///
/// ```c
/// uint8_t secret[SHAMIR_SECRET_BYTES_MAX];
/// shamir_answer answer = shamir_decrypt(
///     &parameters, encrypted, encrypted_bytes, "TREZOR", 6, "df41d8fe", SHAMIR_FINGERPRINT_BYTES_MAX, secret, sizeof secret);
/// ```
#[unsafe(no_mangle)]
pub extern "C" fn shamir_decrypt(
    parameters: &ShamirParameters,
    encrypted: &[u8],
    passphrase: &[u8],
    expected: &[u8],
    secret: &mut [u8],
) -> ShamirAnswer
    ensures { GivesDecrypted parameters.now
        (λ params noted. IsDecryption noted passphrase.now (params, encrypted.now))
        expected.now secret.old secret.new result }
{
    let answer = decrypt_answer(parameters, encrypted, passphrase, expected, secret);
    let _ = clear_stack::<DECRYPT>();
    answer
}

/// The answer of `shamir_decrypt`.
#[inline(never)]
fn decrypt_answer(
    parameters: &ShamirParameters,
    encrypted: &[u8],
    passphrase: &[u8],
    expected: &[u8],
    secret: &mut [u8],
) -> ShamirAnswer
    ensures { GivesDecrypted parameters.now
        (λ params noted. IsDecryption noted passphrase.now (params, encrypted.now))
        expected.now secret.old secret.new result }
{
    match params_of(parameters) {
        Ok(params) => decrypt_by(params, encrypted, passphrase, expected, secret),
        Err(()) => ShamirAnswer::out_of_range(),
    }
}

/// The parameters with these numbers, unless a number is out of its range.
pub(crate) fn params_of(parameters: &ShamirParameters) -> Result<Params, ()>
    ensures { AreParameters parameters.now result }
{
    if MAX_ID < parameters.id || 1 < parameters.extendable || MAX_EXPONENT < parameters.exponent {
        return Err(());
    }
    Ok(Params {
        id: parameters.id,
        extendable: parameters.extendable == 1,
        exponent: parameters.exponent,
    })
}

/// Decrypts an encrypted secret with these parameters.
fn decrypt_by(
    params: Params,
    encrypted: &[u8],
    passphrase: &[u8],
    expected: &[u8],
    secret: &mut [u8],
) -> ShamirAnswer
    ensures { GivesExpectedSecret (λ noted. GivesDecryption
        (IsDecryption noted passphrase.now (params, encrypted.now)) secret.old)
        expected.now secret.old secret.new result }
{
    match expected_in(expected) {
        Ok(noted) => decrypt_expected(params, encrypted, passphrase, noted, secret),
        Err(error) => ShamirAnswer::from(error),
    }
}

/// Decrypts an encrypted secret, and gives the secret if it is the expected one.
fn decrypt_expected(
    params: Params,
    encrypted: &[u8],
    passphrase: &[u8],
    expected: Option<NotedFingerprint>,
    secret: &mut [u8],
) -> ShamirAnswer
    ensures { GivesDecryption (IsDecryption expected passphrase.now (params, encrypted.now))
        secret.old secret.new result }
{
    match decrypt_secret(expected, passphrase, params, encrypted) {
        Ok(decrypted) => give(decrypted.as_slice(), secret),
        Err(fault) => ShamirAnswer::from(fault),
    }
}
