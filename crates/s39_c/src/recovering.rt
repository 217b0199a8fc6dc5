//! The call that recovers a secret.
ghost use Rattle.s39_kdf.specs.Bytes.{AreBytes};
ghost use Rattle.s39_kdf.specs.declared.secret_form.SecretForm.TheVariants.{Digits};
ghost use Rattle.s39_input.specs.Input.{whole};
ghost use Rattle.s39_reading.specs.Recover.{IsRecoverOutput, RecoversCreated, WritesSecret};
ghost use Rattle.s39_c.specs.Exponents.{GivesUpTo};
ghost use Rattle.s39_c.specs.Recovering.{GivesExpectedSecret, GivesSecret};

use crate::answer::ShamirAnswer;
use crate::clearing::RECOVER;
use crate::expected::expected_in;
use crate::exponent::set_up_to;
use crate::memory::give;
use s39_clearing::clear_stack;
use s39_kdf::NotedFingerprint;
use s39_reading::laws::created_backups_recover;
use s39_reading::recover_set;
use s39_set::ShareSet;

/// Recovers the master secret from the mnemonics in `lines`, with a passphrase. The call takes the first quorum in the
/// order of a drill; a quorum is a minimal set of mnemonics that meets the thresholds. The secret goes to the start of
/// `secret`. It has an even number of bytes, 16 to 128, and `written` is that number. The bytes after it are unchanged.
/// A wrong passphrase gives another secret, which isn't detected if `expected` is empty. Otherwise `expected` is the
/// fingerprint of the secret: eight hexadecimal digits in either case.
///
/// The call refuses with the first of these that applies, and `secret` is then unchanged:
///
/// - 44 (`expected` is neither empty nor a fingerprint), 41 (the passphrase), then the code of the first refused line (11
///   to 28, 71), then 29, 30;
/// - 3, if the exponent of the mnemonics is above `max_exponent`; the call then derives no key;
/// - 51, 52 (the secret has another fingerprint);
/// - 1, if `secret` is too short, which the call notices only after the iterations.
///
/// ```c
/// uint8_t secret[SHAMIR_SECRET_BYTES_MAX];
/// shamir_answer answer = shamir_recover(
///     lines, lines_bytes, "TREZOR", 6, SHAMIR_EXPONENT_MAX, "df41d8fe", SHAMIR_FINGERPRINT_BYTES_MAX, secret, sizeof secret);
/// ```
#[unsafe(no_mangle)]
pub extern "C" fn shamir_recover(
    lines: &[u8],
    passphrase: &[u8],
    max_exponent: u32,
    expected: &[u8],
    secret: &mut [u8],
) -> ShamirAnswer
    ensures recovers { GivesExpectedSecret (λ noted. GivesUpTo max_exponent passphrase.now lines.now
        (GivesSecret (IsRecoverOutput Digits noted passphrase.now (whole lines.now)) secret.old) secret.old)
        expected.now secret.old secret.new result }
    // For mnemonics of a created backup and its passphrase, the result is its secret, or why there is no quorum, or that
    // another secret is expected.
    ensures created { GivesExpectedSecret (λ noted. GivesUpTo max_exponent passphrase.now lines.now
        (GivesSecret (RecoversCreated Digits noted passphrase.now (whole lines.now)) secret.old) secret.old)
        expected.now secret.old secret.new result }
{
    created_backups_recover();
    let answer = recover_answer(lines, passphrase, max_exponent, expected, secret);
    let _ = clear_stack::<RECOVER>();
    answer
}

/// The answer of `shamir_recover`.
#[inline(never)]
fn recover_answer(
    lines: &[u8],
    passphrase: &[u8],
    max_exponent: u32,
    expected: &[u8],
    secret: &mut [u8],
) -> ShamirAnswer
    ensures { GivesExpectedSecret (λ noted. GivesUpTo max_exponent passphrase.now lines.now
        (GivesSecret (IsRecoverOutput Digits noted passphrase.now (whole lines.now)) secret.old) secret.old)
        expected.now secret.old secret.new result }
{
    match expected_in(expected) {
        Ok(noted) => recover_expected(lines, passphrase, max_exponent, noted, secret),
        Err(error) => ShamirAnswer::from(error),
    }
}

/// Recovers the secret of lines, if it is the expected one.
fn recover_expected(
    lines: &[u8],
    passphrase: &[u8],
    max_exponent: u32,
    expected: Option<NotedFingerprint>,
    secret: &mut [u8],
) -> ShamirAnswer
    ensures { GivesUpTo max_exponent passphrase.now lines.now
        (GivesSecret (IsRecoverOutput Digits expected passphrase.now (whole lines.now)) secret.old)
        secret.old secret.new result }
{
    match set_up_to(max_exponent, passphrase, lines) {
        Ok(set) => give_secret(&set, passphrase, expected, secret),
        Err(refusal) => refusal,
    }
}

/// Gives the secret that a set recovers, if it is the expected one.
fn give_secret(
    set: &ShareSet,
    passphrase: &[u8],
    expected: Option<NotedFingerprint>,
    secret: &mut [u8],
) -> ShamirAnswer
    ensures { GivesSecret (λ text answer. WritesSecret Digits expected passphrase.now set.now (text, answer))
        secret.old secret.new result }
{
    match recover_set(expected, passphrase, set) {
        Ok(recovered) => {
            let bytes = recovered.as_slice();
            are_bytes(bytes);
            give(bytes, secret)
        }
        Err(fault) => ShamirAnswer::from(fault),
    }
}

/// The elements of a slice of bytes are bytes.
fn are_bytes(bytes: &[u8])
    ensures { AreBytes bytes.now }
{}
