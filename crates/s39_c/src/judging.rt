//! The call that judges a mnemonic beside those that came before it.
ghost use Rattle.std.specs.Prelude.{◌≡◌};
ghost use Rattle.s39_reading.specs.Status.{IsStatusOf};
ghost use Rattle.s39_c.specs.Judging.{GivesJudgement, judgement_of};
ghost use Rattle.s39_c.specs.Status.{GivesStatus};

use crate::answer::ShamirAnswer;
use crate::clearing::JUDGE;
use crate::parsing::{ShamirShare, header_of};
use s39_clearing::clear_stack;
use s39_input::{Judged, judge};
use s39_reading::set_status;
use s39_set::ShareSet;

/// What a mnemonic is beside those that came before it.
#[repr(C)]
#[derive(Clone, Copy, Debug, PartialEq, Eq)]
pub struct ShamirJudgement {
    /// The fields of the mnemonic, as `shamir_parse` gives them.
    pub share: ShamirShare,
    /// 1 if the share of the mnemonic is among those that came before it, else 0.
    pub again: u8,
}

/// Judges one mnemonic, `line`, beside those in `lines`, which came before it. `line` has no line feed, as `shamir_parse` takes
/// it. `lines` may be of several backups. Two mnemonics are taken to be of one backup if they have the same identifier.
///
/// `judgement` gets the fields of `line`, and whether its share is among those of `lines`. The rest is what `shamir_status`
/// gives for `line` with those of `lines` that have its identifier: its text goes to the start of `text`, `written` is its
/// length in bytes, and the bytes after it are unchanged. `first` is the number of complete groups, and `second` is the group
/// threshold. There is a quorum if and only if `first` is at least `second`. The call needs no passphrase.
///
/// If `again` is 0, the caller puts `line` behind `lines`, with a line feed between them, before it judges the next mnemonic.
///
/// The call refuses with the first of these that applies, and `text` is then unchanged. So is `judgement`, except at 1:
///
/// - 71 (`line` has more than 1,024 bytes), and then 11 to 15 (it isn't a mnemonic), as `shamir_parse` refuses it; the line of the
///   answer is 0;
/// - the code of the first line of `lines` that is refused, with its number: by itself (11 to 15, 71), or because it has the
///   identifier of `line` and can't join those before it that have it too (22 to 28). A line with another identifier is
///   refused only by itself;
/// - 22 to 28 (`line` can't join those of `lines` that have its identifier), and the line of the answer is 0;
/// - 1, if `text` is too short.
///
/// ```c
/// shamir_judgement judgement;
/// char text[SHAMIR_STATUS_BYTES_MAX];
/// shamir_answer answer =
///     shamir_judge(lines, lines_bytes, line, strlen(line), &judgement, text, sizeof text);
/// int enough = answer.code == SHAMIR_DONE && answer.first >= answer.second;
/// ```
#[unsafe(no_mangle)]
pub extern "C" fn shamir_judge(
    lines: &[u8],
    line: &[u8],
    judgement: &mut ShamirJudgement,
    text: &mut [u8],
) -> ShamirAnswer
    ensures { GivesJudgement lines.now line.now judgement.old judgement.new text.old text.new result }
{
    let answer = judge_answer(lines, line, judgement, text);
    let _ = clear_stack::<JUDGE>();
    answer
}

/// The answer of `shamir_judge`.
#[inline(never)]
fn judge_answer(
    lines: &[u8],
    line: &[u8],
    judgement: &mut ShamirJudgement,
    text: &mut [u8],
) -> ShamirAnswer
    ensures { GivesJudgement lines.now line.now judgement.old judgement.new text.old text.new result }
{
    match judge(lines, line) {
        Ok(judged) => {
            *judgement = judgement_of(&judged);
            give_status(&judged.set, text)
        }
        Err(fault) => ShamirAnswer::from(fault),
    }
}

/// What is said of a judged mnemonic.
fn judgement_of(judged: &Judged) -> ShamirJudgement
    ensures { result ≡ judgement_of judged.now }
{
    ShamirJudgement {
        share: header_of(judged.share.fields()),
        again: u8::from(judged.again),
    }
}

/// Writes the status of a set to the start of a buffer if it fits, and refuses the buffer otherwise.
fn give_status(set: &ShareSet, text: &mut [u8]) -> ShamirAnswer
    ensures { GivesStatus (IsStatusOf set.now) text.old text.new result }
{
    match set_status(set, text) {
        Ok(told) => ShamirAnswer::counted(told),
        Err(cause) => ShamirAnswer::from(cause),
    }
}
