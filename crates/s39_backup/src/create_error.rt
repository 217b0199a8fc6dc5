//! Why no backup is created.
ghost use Rattle.std.specs.Prelude.{◌≡◌};
ghost use Rattle.s39_backup.specs.Created.{create_cause_of};

use s39_kdf::{BadPassphrase, BadSecretLength};
use s39_refusal::{Cause, code};

/// Why no backup is created.
#[derive(Clone, Copy, Debug, PartialEq, Eq)]
pub enum CreateError {
    /// A byte of the passphrase isn't printable ASCII, which is 32 to 126.
    Passphrase(BadPassphrase),
    /// The secret has an odd number of bytes, or fewer than 16, or more than 128.
    SecretLength(BadSecretLength),
    /// The backup takes `needed` random bytes, and more or fewer were passed.
    BadRandomLength { needed: usize },
}

impl CreateError {
    /// Returns the number of the refusal, 41 to 43, and its detail: the position of the byte (counted from 1), the
    /// length of the secret in bytes, or the number of random bytes that are needed.
    pub fn cause(&self) -> Cause
        ensures { result ≡ create_cause_of self.now }
    {
        match self {
            CreateError::Passphrase(bad) => bad.cause(),
            CreateError::SecretLength(bad) => bad.cause(),
            CreateError::BadRandomLength { needed } => {
                Cause::new(code::RANDOM_LENGTH, *needed as u64, 0)
            }
        }
    }
}
