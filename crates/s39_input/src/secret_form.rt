//! The forms in which a line shows a secret.
ghost use Rattle.std.specs.Prelude.{◌≡◌, ◌+◌, ◌*◌, ◌≤◌, ◌++◌, length};
ghost use Rattle.s39_kdf.specs.Limits.{longest_secret};
ghost use Rattle.s39_input.specs.SecretForm.{is_unexpected, secret_in};
ghost use Rattle.s39_input.specs.declared.output.TheConstants.{LINE_BYTES};

use crate::output::{Line, push_hex, push_text};
use s39_kdf::{Bytes, SecretForm, fingerprint};

/// Appends a secret in this form, or whether it has the expected fingerprint. The caller makes sure that there is room
/// for 256 bytes.
pub fn push_secret(line: &mut Line, form: SecretForm, secret: &Bytes)
    requires room { length line.old.items + 2 * longest_secret ≤ LINE_BYTES }
    ensures text { line.new.items ≡ line.old.items ++ secret_in form secret.now.items }
    ensures room { length line.new.items ≤ length line.old.items + 2 * longest_secret }
{
    match form {
        SecretForm::Digits => push_hex(line, secret.as_slice()),
        SecretForm::Fingerprint => push_hex(line, &fingerprint(secret.as_slice())),
        SecretForm::Expected(noted) if noted.is_of(secret.as_slice()) => {
            push_text(line, b"as expected");
        }
        SecretForm::Expected(_) => push_text(line, b"other secret"),
    }
}

/// Returns whether another fingerprint is expected than that of the secret.
pub fn is_unexpected(form: SecretForm, secret: &Bytes) -> bool
    ensures { result ≡ is_unexpected form secret.now.items }
{
    match form {
        SecretForm::Digits | SecretForm::Fingerprint => false,
        SecretForm::Expected(noted) => !noted.is_of(secret.as_slice()),
    }
}
