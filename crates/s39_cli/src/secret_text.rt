//! The text of a secret.
ghost use Rattle.std.specs.Prelude.{◌≡◌, IfOk, IfErr, Ok};
ghost use Rattle.hex.specs.Hex.{decode_of};
ghost use Rattle.s39_cli.specs.NoWork.{IsNoSecret};

use crate::work::NoWork;
use s39_clearing::Cleared;
use s39_input::read_hex;
use std::alloc::Global;

/// The bytes of the text of a secret, which is hexadecimal. No branch and no address depends on a digit.
pub(crate) fn secret_of(alloc: Global, text: &[u8]) -> Result<Cleared, NoWork>
    ensures secret { IfOk result (λ secret. decode_of text.now ≡ Ok secret.bytes.items) }
    ensures refused { IfErr result (IsNoSecret text.now) }
{
    if text.len() % 2 != 0 {
        return Err(NoWork::Secret);
    }
    let Ok(bytes) = vec![in alloc; 0u8; text.len() / 2] else {
        return Err(NoWork::Memory);
    };
    let mut secret = Cleared { bytes };
    if read_hex(text, secret.bytes.as_mut_slice()) {
        Ok(secret)
    } else {
        Err(NoWork::Secret)
    }
}
