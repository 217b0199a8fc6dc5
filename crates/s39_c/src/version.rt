//! The call that gives the version of the library.
ghost use Rattle.s39_c.specs.Answers.{Gives};
ghost use Rattle.s39_c.specs.Version.{version};

use crate::answer::ShamirAnswer;
use crate::memory::give;

/// Writes the version of the library to the start of `text`, such as `1.0.0`. `written` is its length in bytes, and the
/// bytes after it are unchanged. The only refusal is 1 (`text` is too short), and `text` is then unchanged.
#[unsafe(no_mangle)]
pub extern "C" fn shamir_version(text: &mut [u8]) -> ShamirAnswer
    ensures { Gives version text.old text.new result }
{
    give(b"1.0.0", text)
}
