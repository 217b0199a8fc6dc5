//! The call that decrypts one round of an encrypted secret.
ghost use Rattle.s39_reading.specs.Encrypted.{IsRoundDecryption};
ghost use Rattle.s39_c.specs.Answers.{Step, out_of_range};
ghost use Rattle.s39_c.specs.Encrypted.{GivesDecryption};
ghost use Rattle.s39_c.specs.Rounds.{GivesDecryptedRound, IsRound};

use crate::answer::ShamirAnswer;
use crate::clearing::DECRYPT_ROUND;
use crate::decrypting::params_of;
use crate::encrypted::ShamirParameters;
use crate::memory::give;
use s39_clearing::clear_stack;
use s39_kdf::{Params, Round};
use s39_reading::decrypt_round;

/// Undoes one of the four rounds of the cipher with a passphrase. So a caller can show how far a decryption is, and stop
/// it. Calls with the rounds 3, 2, 1 and 0, in this order, give what `shamir_decrypt` gives if `expected` is empty, in a quarter of
/// the time each. `encrypted` is the encrypted secret at first, and then what the call before gave.
///
/// The undone text goes to the start of `undone`, and `written` is its length, which is that of `encrypted`. The bytes after it are
/// unchanged. Passphrases can be tried on each of these texts, and after round 1 it ends with
/// half of the secret.
///
/// The call refuses with the first of these that applies, and `undone` is then unchanged:
///
/// - 2, if a number of the parameters is out of its range, or `round` is above 3;
/// - 41 (the passphrase);
/// - 42, if `encrypted` has a length that no secret has;
/// - 1, if `undone` is too short. The call notices this only after the iterations.
///
/// ```c
/// uint8_t undone[SHAMIR_SECRET_BYTES_MAX];
/// shamir_answer answer = shamir_decrypt_round(
///     &parameters, 3, encrypted, encrypted_bytes, "TREZOR", 6, undone, sizeof undone);
/// ```
#[unsafe(no_mangle)]
pub extern "C" fn shamir_decrypt_round(
    parameters: &ShamirParameters,
    round: u8,
    encrypted: &[u8],
    passphrase: &[u8],
    undone: &mut [u8],
) -> ShamirAnswer
    ensures { GivesDecryptedRound parameters.now round encrypted.now passphrase.now
        undone.old undone.new result }
{
    let answer = round_answer(parameters, round, encrypted, passphrase, undone);
    let _ = clear_stack::<DECRYPT_ROUND>();
    answer
}

/// The answer of `shamir_decrypt_round`.
#[inline(never)]
fn round_answer(
    parameters: &ShamirParameters,
    round: u8,
    encrypted: &[u8],
    passphrase: &[u8],
    undone: &mut [u8],
) -> ShamirAnswer
    ensures { GivesDecryptedRound parameters.now round encrypted.now passphrase.now
        undone.old undone.new result }
{
    match params_of(parameters) {
        Ok(params) => numbered_round(params, round, encrypted, passphrase, undone),
        Err(()) => ShamirAnswer::out_of_range(),
    }
}

/// Undoes the round with this number, if there is one.
fn numbered_round(
    params: Params,
    number: u8,
    encrypted: &[u8],
    passphrase: &[u8],
    undone: &mut [u8],
) -> ShamirAnswer
    ensures { Step (IsRound number) (λ _. out_of_range) (λ _.
        GivesDecryption (IsRoundDecryption number passphrase.now (params, encrypted.now)) undone.old)
        undone.old undone.new result }
{
    match Round::new(number) {
        Some(round) => give_round(params, round, encrypted, passphrase, undone),
        None => ShamirAnswer::out_of_range(),
    }
}

/// Undoes a round, and gives the text.
fn give_round(
    params: Params,
    round: Round,
    encrypted: &[u8],
    passphrase: &[u8],
    undone: &mut [u8],
) -> ShamirAnswer
    ensures { GivesDecryption (IsRoundDecryption round.number passphrase.now (params, encrypted.now))
        undone.old undone.new result }
{
    match decrypt_round(round, passphrase, params, encrypted) {
        Ok(text) => give(text.as_slice(), undone),
        Err(fault) => ShamirAnswer::from(fault),
    }
}
