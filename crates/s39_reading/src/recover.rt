//! The command `recover`: the secret of the least quorum of an input's shares.
ghost use Rattle.std.specs.Prelude.{◌≡◌, ◌≢◌, ◌+◌, ◌<◌, [], Ok, Err, IfOk, IfErr};
ghost use Rattle.s39_kdf.specs.declared.limits.BadPassphrase.{BadPassphrase};
ghost use Rattle.s39_input.specs.Fault.{fault_of, read_failures, write_failures};
ghost use Rattle.s39_reading.specs.Recover.{as_expected, IsRecovered, IsRecoverOutput, secret_line};
ghost use Rattle.s39_reading.specs.Recover.{RecoversCreated};
ghost use Rattle.s39_input.specs.Runs.{OfInput, Runs};

use crate::laws::created_backups_recover;
use s39_backup::recover_quorum;
use s39_input::{
    Counting, DeviceFailure, Fault, Line, Refusal, SecretForm, Watch, checked_set, push_secret,
    write_text,
};
use s39_kdf::{Bytes, NotedFingerprint};
use s39_set::{ShareSet, first};
use std::io::{Read, Write};

/// Recovers the secret from the first quorum (`s39_set::first`) of the input's shares with the passphrase (SLIP-0039,
/// "Shamir's secret sharing" and "Encryption of the master secret"). It writes the secret, or its fingerprint, in
/// lower-case hexadecimal, on one line. If a fingerprint is expected, it does so only if the secret has it.
///
/// Shares beyond that quorum are accepted, and repeats change nothing. Blank lines and comments are skipped. A comment
/// starts with `#`, after any spaces, tabs and carriage returns.
///
/// The first error that applies is returned, and then nothing is written:
///
/// - `Passphrase` if a byte of the passphrase isn't printable ASCII, before anything is read;
/// - what `s39_input::read_set` refuses: a line, or a failed read;
/// - `Lack` if the shares have no quorum;
/// - `DigestMismatch` if a digest of the first quorum doesn't match;
/// - `OtherSecret` if the secret doesn't have the expected fingerprint.
///
/// If a write fails or takes no byte, the fault is `Device(Write)`, and a beginning of the line is written. Without an
/// expected fingerprint, a wrong passphrase isn't detected: as a rule it gives another secret. The caller keeps both
/// `failures()` below `u64::MAX`.
///
/// `watch` is told before the secret is written, unless the recovery is refused.
///
/// ```rust
/// let mut input = Counting::new(
///     b"duckling enlarge academic academic agency result length solution fridge kidney coal \
///     piece deal husband erode duke ajar critical decision keyboard\n"
///         .as_slice(),
/// );
/// let mut text = Vec::new(rt.alloc());
/// let mut output = Counting::new(&mut text);
/// run_recover(SecretForm::Digits, None, b"TREZOR", &mut input, &mut output, &mut ())?;
/// assert!(rt; text.starts_with(b"bb54aac4b89dc868ba37d9cc21b2cece\n"));
/// ```
pub fn run_recover<R: Read, W: Write, P: Watch>(
    form: SecretForm,
    expected: Option<NotedFingerprint>,
    passphrase: &[u8],
    input: &mut Counting<R>,
    output: &mut Counting<W>,
    watch: &mut P,
) -> Result<(), Fault>
    requires readable { input.old.failures < u64.MAX }
    requires writable { output.old.failures < u64.MAX }
    ensures runs { Runs R.remaining W.contents (IsRecoverOutput form expected passphrase.now)
        input.old input.new output.old output.new result }
    // Of mnemonics of a created backup, with the passphrase of the creation: its secret; or why they have no quorum, or
    // that another secret is expected.
    ensures created { Runs R.remaining W.contents (RecoversCreated form expected passphrase.now)
        input.old input.new output.old output.new result }
    // Of any devices.
    ensures told { IfOk result (λ _. P.awaits watch.old watch.new) }
    ensures cut { IfErr result (λ fault. fault.refusal ≡ Refusal.Device DeviceFailure.Write
        → P.awaits watch.old watch.new) }
    ensures untouched { IfErr result (λ fault.
        fault.refusal ≢ Refusal.Device DeviceFailure.Write
        → (output.new ≡ output.old) × (watch.new ≡ watch.old)) }
    ensures unread { (bad : BadPassphrase)
        → result ≡ Err (fault_of (Refusal.Passphrase bad)) → input.new ≡ input.old }
{
    created_backups_recover();
    let line = recovered_line(form, expected, passphrase, input)?;
    watch.about_to_write();
    write_text(output, line.as_slice())?;
    Ok(())
}

/// The line that `run_recover` writes for an input, or the fault for which it writes nothing.
fn recovered_line<R: Read>(
    form: SecretForm,
    expected: Option<NotedFingerprint>,
    passphrase: &[u8],
    input: &mut Counting<R>,
) -> Result<Line, Fault>
    requires { input.old.failures < u64.MAX }
    ensures line { IfOk result (λ line. OfInput R.remaining input.old input.new
        (λ input. IsRecoverOutput form expected passphrase.now input line.items (Ok tt))) }
    ensures refused { IfErr result (λ fault. OfInput R.remaining input.old input.new
        (λ input. IsRecoverOutput form expected passphrase.now input [] (Err fault))) }
    ensures read_failures { input.new.failures ≡ input.old.failures + read_failures result }
    ensures write_failures { write_failures result ≡ 0 }
    ensures unread { (bad : BadPassphrase)
        → result ≡ Err (fault_of (Refusal.Passphrase bad)) → input.new ≡ input.old }
{
    let set = checked_set(passphrase, input)?;
    let secret = recover_set(expected, passphrase, &set)?;
    Ok(secret_line(form, &secret))
}

/// Returns the secret that the first quorum (`s39_set::first`) of a set recovers with the passphrase. It is the secret
/// whose digits `run_recover` writes for the set of its input.
///
/// The first error that applies is returned:
///
/// - `Lack` if the shares have no quorum;
/// - `DigestMismatch` if a digest of the first quorum doesn't match;
/// - `OtherSecret` if a fingerprint is expected that the secret doesn't have.
///
/// Without an expected fingerprint, a wrong passphrase isn't detected: as a rule it gives another secret.
///
/// ```rust
/// let line =
///     b"duckling enlarge academic academic agency result length solution fridge kidney coal \
///     piece deal husband erode duke ajar critical decision keyboard\n";
/// let set = checked_set_in(b"TREZOR", line)?;
/// let secret = recover_set(None, b"TREZOR", &set)?;
/// assert!(rt; secret.starts_with(b"\xbb\x54\xaa\xc4\xb8\x9d\xc8\x68"));
/// let expected = Some(parse_fingerprint(b"df41d8fe")?);
/// let fault = recover_set(expected, b"trezor", &set).err();
/// assert_eq!(rt; fault.map(|fault| fault.refusal.cause().code), Some(52));
/// ```
pub fn recover_set(
    expected: Option<NotedFingerprint>,
    passphrase: &[u8],
    set: &ShareSet,
) -> Result<Bytes, Fault>
    ensures secret { IfOk result (λ secret.
        IsRecovered expected passphrase.now set.now (Ok secret.items)) }
    ensures refused { IfErr result (λ fault.
        IsRecovered expected passphrase.now set.now (Err fault)) }
{
    let quorum = first(set)?;
    let secret = recover_quorum(set, &quorum, passphrase)?;
    as_expected(expected, secret)
}

/// The secret, or the fault if another fingerprint is expected.
pub(crate) fn as_expected(expected: Option<NotedFingerprint>, secret: Bytes) -> Result<Bytes, Fault>
    ensures secret { IfOk result (λ same. as_expected expected secret.items ≡ Ok same.items) }
    ensures refused { IfErr result (λ fault. as_expected expected secret.items ≡ Err fault) }
{
    match expected {
        Some(noted) if !noted.is_of(secret.as_slice()) => Err(Fault::from(Refusal::OtherSecret)),
        _ => Ok(secret),
    }
}

/// The line of a secret.
fn secret_line(form: SecretForm, secret: &Bytes) -> Line
    ensures { result.items ≡ secret_line form secret.now.items }
{
    let mut line = Line::new();
    push_secret(&mut line, form, secret);
    line.push(b'\n');
    line
}
