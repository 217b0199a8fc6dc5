//! The limits of master secrets and passphrases.
ghost use Rattle.std.specs.Prelude.{◌≡◌, ◌↔◌, length, All, IsTrue, IsOk, IfOk, IfErr};
ghost use Rattle.s39_kdf.specs.Causes.{passphrase_cause, length_cause};
ghost use Rattle.s39_kdf.specs.Limits.{IsPrintable, IsFirstUnprintable, IsSecretLength};

use arrayvec::ArrayVec;
use s39_refusal::{Cause, code};

/// The fewest bytes of a master secret (SLIP-0039, "Generating the shares").
pub const MIN_SECRET_BYTES: usize = 16;

/// The most bytes of a master secret. The limit is this program's own, and not the standard's.
pub const MAX_SECRET_BYTES: usize = 128;

/// The bytes of a master secret, an encrypted secret or a share value: at most [`MAX_SECRET_BYTES`], in place and
/// without an allocation.
pub type Bytes = ArrayVec<u8, MAX_SECRET_BYTES>;

/// The refusal of a passphrase that has a byte outside 32 to 126, the printable characters of ASCII (SLIP-0039,
/// "Passphrase").
///
/// ```rust
/// let cause = BadPassphrase { position: 2 }.cause();
/// assert_eq!(rt; (cause.code, cause.first), (41, 2));
/// ```
#[derive(Clone, Copy, PartialEq, Eq, Debug)]
pub struct BadPassphrase {
    /// The position of the first such byte, counted from 1.
    pub position: usize,
}

impl BadPassphrase {
    /// Returns what the refusal says: its number, which is 41, and the position as the first detail.
    pub fn cause(&self) -> Cause
        ensures { result ≡ passphrase_cause self.now.position }
    {
        Cause::new(code::PASSPHRASE, self.position as u64, 0)
    }
}

/// The refusal of a master secret whose length is odd, below 16 bytes or above 128.
///
/// ```rust
/// let cause = BadSecretLength { bytes: 14 }.cause();
/// assert_eq!(rt; (cause.code, cause.first), (42, 14));
/// ```
#[derive(Clone, Copy, PartialEq, Eq, Debug)]
pub struct BadSecretLength {
    /// The refused length, in bytes.
    pub bytes: usize,
}

impl BadSecretLength {
    /// Returns what the refusal says: its number, which is 42, and the length as the first detail.
    pub fn cause(&self) -> Cause
        ensures { result ≡ length_cause self.now.bytes }
    {
        Cause::new(code::SECRET_LENGTH, self.bytes as u64, 0)
    }
}

/// Checks a passphrase: accepts it if and only if all its bytes are from 32 to 126, the printable characters of ASCII
/// (SLIP-0039, "Passphrase"). An empty passphrase is accepted, and the length has no limit.
///
/// The refusal holds the position of the first byte outside that range, counted from 1.
///
/// ```rust
/// assert_eq!(rt; check_passphrase(b"correct horse"), Ok(()));
/// let refusal = check_passphrase(b"a\x07").err();
/// assert_eq!(rt; refusal, Some(BadPassphrase { position: 2 }));
/// ```
pub fn check_passphrase(passphrase: &[u8]) -> Result<(), BadPassphrase>
    ensures accepted { IsOk result ↔ All IsPrintable passphrase.now }
    ensures first { IfErr result (λ bad. IsFirstUnprintable passphrase.now bad.position) }
{
    for (i, byte) in passphrase.iter().enumerate() {
        if !is_printable(*byte) {
            return Err(BadPassphrase { position: i + 1 });
        }
    }
    Ok(())
}

/// Whether a byte is a printable character of ASCII.
fn is_printable(byte: u8) -> bool
    ensures { IsTrue result ↔ IsPrintable byte }
{
    matches!(byte, 32..=126)
}

/// Checks the length of a master secret in bytes: accepts it if and only if it is even and from 16 to 128. The refusal
/// holds the length.
///
/// ```rust
/// assert_eq!(rt; check_secret_length(16), Ok(()));
/// assert_eq!(rt; check_secret_length(17), Err(BadSecretLength { bytes: 17 }));
/// ```
pub fn check_secret_length(bytes: usize) -> Result<(), BadSecretLength>
    ensures accepted { IsOk result ↔ IsSecretLength bytes }
    ensures length { IfErr result (λ bad. bad.bytes ≡ bytes) }
{
    if bytes % 2 != 0 || bytes < MIN_SECRET_BYTES || MAX_SECRET_BYTES < bytes {
        return Err(BadSecretLength { bytes });
    }
    Ok(())
}

/// Copies a master secret if its length is even and from 16 to 128 bytes, and refuses it otherwise. The refusal holds
/// the length.
///
/// ```rust
/// let secret = check_secret(&[7; 16])?;
/// assert_eq!(rt; secret.as_slice(), &[7; 16][..]);
/// let refusal = check_secret(&[7; 14]).err();
/// assert_eq!(rt; refusal, Some(BadSecretLength { bytes: 14 }));
/// ```
pub fn check_secret(secret: &[u8]) -> Result<Bytes, BadSecretLength>
    ensures accepted { IsOk result ↔ IsSecretLength (length secret.now) }
    ensures unchanged { IfOk result (λ bytes. bytes.items ≡ secret.now) }
    ensures length { IfErr result (λ bad. bad.bytes ≡ length secret.now) }
{
    check_secret_length(secret.len())?;
    Ok(Bytes::try_from(secret).unwrap())
}
