//! Encrypted secrets (SLIP-0039, "Encryption of the master secret").
ghost use Rattle.std.specs.Prelude.{◌≡◌, ◌↔◌, ℕ, List, Option, Result, Ok, Err, IfOk, IfErr};
ghost use Rattle.s39_kdf.specs.declared.noted.NotedFingerprint.{NotedFingerprint as Noted};
ghost use Rattle.s39_kdf.specs.declared.params.Params.{Params as AnyParams};
ghost use Rattle.s39_kdf.specs.declared.secret_form.SecretForm.{SecretForm};
ghost use Rattle.s39_words.specs.declared.ShareFields.{ShareFields};
ghost use Rattle.s39_input.specs.Accepted.{IsJudged};
ghost use Rattle.s39_input.specs.declared.fault.Fault.{Fault as AnyFault};
ghost use Rattle.s39_input.specs.declared.fault.Refusal.TheVariants.{Passphrase};
ghost use Rattle.s39_input.specs.Fault.{fault_of};
ghost use Rattle.s39_input.specs.Input.{Input, whole};
ghost use Rattle.s39_input.specs.Steps.{Then, nothing_for};
ghost use Rattle.s39_reading.specs.Encrypted.{IsDecrypted, IsDecryption, IsEncryptedIn, IsEncryptedOf};
ghost use Rattle.s39_reading.specs.Recover.{IsRecovered, IsRecoverOutput, secret_line};

use crate::recover::as_expected;
use s39_backup::laws::{every_quorum_has_an_outcome, outcomes_in_range};
use s39_backup::{combine_quorum, params_of};
use s39_input::laws::{accepted_inputs_are_share_sets, every_input_is_read, one_set};
use s39_input::{Fault, set_in};
use s39_kdf::laws::{
    encryption_keeps_length_and_bytes, encrypts_one_secret, one_encryption,
    passphrases_are_printable_or_not,
};
use s39_kdf::{Bytes, NotedFingerprint, Params, check_passphrase, check_secret, decrypt};
use s39_set::laws::{one_first_quorum, one_lack, quorum_or_lack};
use s39_set::{ShareSet, first};

/// An encrypted master secret, and what decrypts it beside the passphrase.
#[derive(Drop)]
pub struct EncryptedSecret {
    /// The parameters of the backup.
    pub params: Params,
    /// The encrypted secret, which is as long as the secret.
    pub bytes: Bytes,
}

/// Returns the encrypted secret to which the first quorum (`s39_set::first`) of the lines' shares combines (SLIP-0039,
/// "Shamir's secret sharing"), with the parameters of the backup. It takes no passphrase and no iterations. Blank lines
/// and comments are skipped. A comment starts with `#`, after any spaces, tabs and carriage returns.
///
/// The first error that applies is returned:
///
/// - the first refused line, as `s39_input::read_set` says;
/// - `Lack` if the shares have no quorum;
/// - `DigestMismatch` if a digest of the first quorum doesn't match.
///
/// ```rust
/// let line =
///     b"duckling enlarge academic academic agency result length solution fridge kidney coal \
///     piece deal husband erode duke ajar critical decision keyboard\n";
/// let encrypted = encrypted_in(line)?;
/// assert_eq!(rt; (encrypted.params.id, encrypted.params.exponent), (7945, 0));
/// assert!(rt; encrypted.bytes.starts_with(b"\x11\xbc\x60\x9d\x21\x74\x7c\x49"));
/// ```
pub fn encrypted_in(lines: &[u8]) -> Result<EncryptedSecret, Fault>
    ensures encrypted { IfOk result (λ found.
        IsEncryptedIn (whole lines.now) (Ok (found.params, found.bytes.items))) }
    ensures refused { IfErr result (λ fault. IsEncryptedIn (whole lines.now) (Err fault)) }
{
    encrypted_of(&set_in(lines)?)
}

/// The encrypted secret to which the first quorum of a set combines.
fn encrypted_of(set: &ShareSet) -> Result<EncryptedSecret, Fault>
    ensures encrypted { IfOk result (λ found.
        IsEncryptedOf set.now (Ok (found.params, found.bytes.items))) }
    ensures refused { IfErr result (λ fault. IsEncryptedOf set.now (Err fault)) }
{
    let quorum = first(set)?;
    let bytes = combine_quorum(set, &quorum)?;
    let params = params_of(set, &quorum);
    Ok(EncryptedSecret { params, bytes })
}

/// Returns the secret whose encryption these bytes are, under a passphrase and parameters (SLIP-0039, "Encryption of the
/// master secret"). It takes 10,000 * 2^exponent iterations of PBKDF2, and twice as many for more than 64 bytes.
///
/// The first error that applies is returned:
///
/// - `Passphrase` if a byte of the passphrase isn't printable ASCII;
/// - `SecretLength` if the number of bytes is odd, below 16 or above 128;
/// - `OtherSecret` if a fingerprint is expected that the secret doesn't have.
///
/// Without an expected fingerprint, a wrong passphrase isn't detected: as a rule it gives another secret.
///
/// ```rust
/// let params = Params {
///     id: 7945,
///     extendable: false,
///     exponent: 0,
/// };
/// let encrypted = b"\x11\xbc\x60\x9d\x21\x74\x7c\x49\xba\x78\xc0\x70\x12\x93\xe4\x17";
/// let secret = decrypt_secret(None, b"TREZOR", params, encrypted)?;
/// assert!(rt; secret.starts_with(b"\xbb\x54\xaa\xc4\xb8\x9d\xc8\x68"));
/// let fault = decrypt_secret(None, b"TREZOR", params, &encrypted[1..]).err();
/// assert_eq!(rt; fault.map(|fault| fault.refusal.cause().code), Some(42));
/// ```
pub fn decrypt_secret(
    expected: Option<NotedFingerprint>,
    passphrase: &[u8],
    params: Params,
    encrypted: &[u8],
) -> Result<Bytes, Fault>
    ensures secret { IfOk result (λ secret.
        IsDecryption expected passphrase.now (params, encrypted.now) (Ok secret.items)) }
    ensures refused { IfErr result (λ fault.
        IsDecryption expected passphrase.now (params, encrypted.now) (Err fault)) }
{
    check_passphrase(passphrase)?;
    let bytes = check_secret(encrypted)?;
    as_expected(expected, decrypt(&bytes, passphrase, params))
}

/// An input has exactly one encrypted secret with its parameters, or one fault.
pub fn one_encrypted_secret()
    ensures once { (input : Input) (result other : Result (AnyParams × List ℕ) AnyFault)
        → IsEncryptedIn input result → IsEncryptedIn input other → result ≡ other }
    ensures exists { (input : Input)
        → (result : Result (AnyParams × List ℕ) AnyFault) × IsEncryptedIn input result }
{
    one_set();
    every_input_is_read();
    accepted_inputs_are_share_sets();
    one_first_quorum();
    one_lack();
    quorum_or_lack();
    every_quorum_has_an_outcome();
}

/// With a passphrase and an expected fingerprint, an encrypted secret has exactly one secret, or one fault.
pub fn one_decryption()
    ensures once { (expected : Option Noted) (passphrase : List ℕ) (encrypted : AnyParams × List ℕ)
        (result other : Result (List ℕ) AnyFault) → IsDecryption expected passphrase encrypted result
        → IsDecryption expected passphrase encrypted other → result ≡ other }
    ensures exists { (expected : Option Noted) (passphrase : List ℕ) (encrypted : AnyParams × List ℕ)
        → (result : Result (List ℕ) AnyFault) × IsDecryption expected passphrase encrypted result }
{
    passphrases_are_printable_or_not();
    encrypts_one_secret();
    one_encryption();
}

/// A recovery is a composition: what a set recovers is what its encrypted secret decrypts to. `recover` judges the passphrase,
/// finds the encrypted secret of the input, and decrypts it.
pub fn recoveries_are_decryptions()
    ensures set { (expected : Option Noted) (passphrase : List ℕ) (set : List ShareFields)
        (result : Result (List ℕ) AnyFault) → IsRecovered expected passphrase set result
        ↔ Then (IsEncryptedOf set) (λ fault. Err fault) (IsDecrypted expected passphrase) result }
    ensures input { (form : SecretForm) (expected : Option Noted) (passphrase : List ℕ) (input : Input)
        (text : List ℕ) (answer : Result (Unit {0}) AnyFault)
        → IsRecoverOutput form expected passphrase input text answer
        ↔ Then (IsJudged passphrase) (λ bad. nothing_for (fault_of (Passphrase bad))) (λ _.
        Then (IsEncryptedIn input) nothing_for (λ encrypted.
        Then (IsDecryption expected passphrase encrypted) nothing_for (λ secret written.
        written ≡ (secret_line form secret, Ok tt)))) (text, answer) }
{
    passphrases_are_printable_or_not();
    accepted_inputs_are_share_sets();
    every_quorum_has_an_outcome();
    outcomes_in_range();
    encryption_keeps_length_and_bytes();
}
