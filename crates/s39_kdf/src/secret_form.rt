//! The forms in which a secret is shown.
use crate::noted::NotedFingerprint;

/// The form in which a line shows a secret.
#[derive(Clone, Copy, Debug, PartialEq, Eq)]
pub enum SecretForm {
    /// The bytes of the secret, in lower-case hexadecimal.
    Digits,
    /// The fingerprint of the secret (`fingerprint`), in lower-case hexadecimal. Its owner recognises the secret by it
    /// without seeing it.
    Fingerprint,
    /// Whether the secret has this fingerprint.
    Expected(NotedFingerprint),
}
