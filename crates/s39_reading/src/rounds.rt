//! One round of the decryption of an encrypted secret.
ghost use Rattle.std.specs.Prelude.{◌≡◌, ℕ, List, Result, Ok, Err, IfOk, IfErr};
ghost use Rattle.s39_kdf.specs.declared.params.Params.{Params as AnyParams};
ghost use Rattle.s39_input.specs.declared.fault.Fault.{Fault as AnyFault};
ghost use Rattle.s39_reading.specs.Encrypted.{IsRoundDecryption};

use s39_input::Fault;
use s39_kdf::laws::passphrases_are_printable_or_not;
use s39_kdf::{Bytes, Params, Round, check_passphrase, check_secret, undo_round};

/// Undoes one round of the encryption under a passphrase, as [`undo_round`](s39_kdf::undo_round) does. `encrypted` is the encrypted
/// secret for round 3, and what the round before gave for each further one.
///
/// The first error that applies is returned:
///
/// - `Passphrase` if a byte of the passphrase isn't printable ASCII;
/// - `SecretLength` if the number of bytes is odd, below 16 or above 128.
///
/// ```rust
/// let params = Params {
///     id: 7945,
///     extendable: false,
///     exponent: 0,
/// };
/// let first = b"\xc5\x64\x4e\xf3\xeb\x05\x3d\xe2\xba\x37\xd9\xcc\x21\xb2\xce\xce";
/// let round = Round::new(0).unwrap();
/// let secret = decrypt_round(round, b"TREZOR", params, first)?;
/// assert!(rt; secret.starts_with(b"\xbb\x54\xaa\xc4\xb8\x9d\xc8\x68"));
/// let fault = decrypt_round(round, b"TREZOR", params, &first[1..]).err();
/// assert_eq!(rt; fault.map(|fault| fault.refusal.cause().code), Some(42));
/// ```
pub fn decrypt_round(
    round: Round,
    passphrase: &[u8],
    params: Params,
    encrypted: &[u8],
) -> Result<Bytes, Fault>
    ensures undone { IfOk result (λ undone.
        IsRoundDecryption round.number passphrase.now (params, encrypted.now) (Ok undone.items)) }
    ensures refused { IfErr result (λ fault.
        IsRoundDecryption round.number passphrase.now (params, encrypted.now) (Err fault)) }
{
    check_passphrase(passphrase)?;
    let bytes = check_secret(encrypted)?;
    Ok(undo_round(round, &bytes, passphrase, params))
}

/// With a passphrase and parameters, a text has exactly one result when a round is undone: a text, or a fault.
pub fn one_round()
    ensures once { (round : ℕ) (passphrase : List ℕ) (text : AnyParams × List ℕ)
        (result other : Result (List ℕ) AnyFault) → IsRoundDecryption round passphrase text result
        → IsRoundDecryption round passphrase text other → result ≡ other }
    ensures exists { (round : ℕ) (passphrase : List ℕ) (text : AnyParams × List ℕ)
        → (result : Result (List ℕ) AnyFault) × IsRoundDecryption round passphrase text result }
{
    passphrases_are_printable_or_not();
}
