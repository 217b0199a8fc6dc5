//! The fingerprint that the caller of a recovery or a decryption expects of the secret.
ghost use Rattle.s39_c.specs.Recovering.{IsExpected};

use s39_kdf::{BadFingerprint, NotedFingerprint, parse_fingerprint};

/// The fingerprint that a text writes: eight hexadecimal digits, in either case. An empty text gives `None`, and any other text is
/// refused.
pub(crate) fn expected_in(text: &[u8]) -> Result<Option<NotedFingerprint>, BadFingerprint>
    ensures { IsExpected text.now result }
{
    if text.is_empty() {
        return Ok(None);
    }
    match parse_fingerprint(text) {
        Ok(noted) => Ok(Some(noted)),
        Err(bad) => Err(bad),
    }
}
