//! The call that gives the encrypted secret of a backup.
ghost use Rattle.std.specs.Prelude.{◌≡◌};
ghost use Rattle.s39_c.specs.Encrypted.{GivesEncrypted, parameters_of};

use crate::answer::ShamirAnswer;
use crate::clearing::ENCRYPTED;
use crate::memory::give;
use s39_clearing::clear_stack;
use s39_kdf::Params;
use s39_reading::encrypted_in;

/// What decrypts an encrypted secret beside the passphrase.
#[repr(C)]
#[derive(Clone, Copy, Debug, PartialEq, Eq)]
pub struct ShamirParameters {
    /// The identifier of the backup, 0 to 32,767.
    pub id: u16,
    /// The extendable flag, 0 or 1.
    pub extendable: u8,
    /// The iteration exponent, 0 to 15.
    pub exponent: u8,
}

/// Gives the encrypted secret of a backup, which `shamir_decrypt` decrypts with a passphrase. The call combines the first
/// quorum of the mnemonics in `lines`, as `shamir_recover` does, takes no passphrase and derives no key. The parameters go
/// to `parameters`, and the encrypted secret to the start of `encrypted`. `written` is its length, which is that of the
/// secret. The bytes after it are unchanged.
///
/// The call refuses with the first of these that applies, and `encrypted` is then unchanged. So is `parameters`, except at 1:
///
/// - the code of the first refused line (11 to 15, 21 to 28, 71), then 29, 30;
/// - 51 (a digest mismatch in the first quorum);
/// - 1, if `encrypted` is too short.
///
/// ```c
/// shamir_parameters parameters;
/// uint8_t encrypted[SHAMIR_SECRET_BYTES_MAX];
/// shamir_answer answer = shamir_encrypted(lines, lines_bytes, &parameters, encrypted, sizeof encrypted);
/// ```
#[unsafe(no_mangle)]
pub extern "C" fn shamir_encrypted(
    lines: &[u8],
    parameters: &mut ShamirParameters,
    encrypted: &mut [u8],
) -> ShamirAnswer
    ensures { GivesEncrypted lines.now parameters.old parameters.new encrypted.old encrypted.new result }
{
    let answer = encrypted_answer(lines, parameters, encrypted);
    let _ = clear_stack::<ENCRYPTED>();
    answer
}

/// The answer of `shamir_encrypted`.
#[inline(never)]
fn encrypted_answer(
    lines: &[u8],
    parameters: &mut ShamirParameters,
    encrypted: &mut [u8],
) -> ShamirAnswer
    ensures { GivesEncrypted lines.now parameters.old parameters.new encrypted.old encrypted.new result }
{
    match encrypted_in(lines) {
        Ok(found) => {
            *parameters = parameters_of(found.params);
            give(found.bytes.as_slice(), encrypted)
        }
        Err(fault) => ShamirAnswer::from(fault),
    }
}

/// The numbers of parameters.
fn parameters_of(params: Params) -> ShamirParameters
    ensures { result ≡ parameters_of params }
{
    ShamirParameters {
        id: params.id,
        extendable: u8::from(params.extendable),
        exponent: params.exponent,
    }
}
