//! The set of mnemonics whose exponent the caller allows.
ghost use Rattle.s39_c.specs.Exponents.{IsUpTo};

use crate::answer::ShamirAnswer;
use s39_input::checked_set_in;
use s39_reading::exponent_of;
use s39_set::ShareSet;

/// The set of the mnemonics in `lines`, or the answer of the first refusal that applies: the passphrase isn't printable,
/// a line is refused, there is no quorum, or the iteration exponent is above the maximum `most`.
pub(crate) fn set_up_to(
    most: u32,
    passphrase: &[u8],
    lines: &[u8],
) -> Result<ShareSet, ShamirAnswer>
    ensures { IsUpTo most passphrase.now lines.now result }
{
    let set = checked_set_in(passphrase, lines)?;
    let exponent = exponent_of(&set)?;
    let said = u32::from(exponent);
    if most < said {
        return Err(ShamirAnswer::high_exponent(exponent));
    }
    Ok(set)
}
