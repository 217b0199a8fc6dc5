//! The output buffers of the caller.
ghost use Rattle.s39_c.specs.Answers.{Gives};

use crate::answer::ShamirAnswer;
use s39_input::put;

/// Writes bytes to the start of an output buffer if they fit, and refuses the buffer otherwise.
pub(crate) fn give(bytes: &[u8], out: &mut [u8]) -> ShamirAnswer
    ensures { Gives bytes.now out.old out.new result }
{
    if out.len() < bytes.len() {
        return ShamirAnswer::too_short(bytes.len());
    }
    put(out, 0, bytes);
    ShamirAnswer::done(bytes.len())
}
