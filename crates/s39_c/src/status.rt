//! The call that tells whether mnemonics are enough for a recovery.
ghost use Rattle.s39_input.specs.Input.{whole};
ghost use Rattle.s39_reading.specs.Status.{IsStatusOutput};
ghost use Rattle.s39_c.specs.Status.{GivesStatus};

use crate::answer::ShamirAnswer;
use crate::clearing::STATUS;
use s39_clearing::clear_stack;
use s39_reading::status_lines;

/// Tells how many members of each group are among the mnemonics in `lines`, in the format of the command `status`. The
/// text goes to the start of `text`; `written` is its length in bytes, and the bytes after it are unchanged. The call
/// needs no passphrase.
///
/// After success, `first` of the answer is the number of complete groups, and `second` is the group threshold. The
/// mnemonics have a quorum if and only if `first` is at least `second`. If they have none, the code is still 0.
///
/// The call refuses with the first of these that applies, and `text` is then unchanged: the code of the first refused
/// line (11 to 15, 21 to 28, 71), 29 (there is no mnemonic), 1 (`text` is too short).
///
/// ```c
/// char text[SHAMIR_STATUS_BYTES_MAX];
/// shamir_answer answer = shamir_status(lines, lines_bytes, text, sizeof text);
/// int enough = answer.code == SHAMIR_DONE && answer.first >= answer.second;
/// ```
#[unsafe(no_mangle)]
pub extern "C" fn shamir_status(lines: &[u8], text: &mut [u8]) -> ShamirAnswer
    ensures { GivesStatus (IsStatusOutput (whole lines.now)) text.old text.new result }
{
    let answer = status_answer(lines, text);
    let _ = clear_stack::<STATUS>();
    answer
}

/// The answer of `shamir_status`.
#[inline(never)]
fn status_answer(lines: &[u8], text: &mut [u8]) -> ShamirAnswer
    ensures { GivesStatus (IsStatusOutput (whole lines.now)) text.old text.new result }
{
    match status_lines(lines, text) {
        Ok(told) => ShamirAnswer::counted(told),
        Err(cause) => ShamirAnswer::from(cause),
    }
}
