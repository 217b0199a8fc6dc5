//! The call that splits the encrypted secret of a backup anew.
ghost use Rattle.std.specs.Prelude.{length};
ghost use Rattle.s39_input.specs.Input.{lines_in, whole};
ghost use Rattle.s39_creating.specs.Resplit.{IsResplitOutput, ResplitsCreated};
ghost use Rattle.s39_c.specs.Answers.{GivesOutputAs, created};
ghost use Rattle.s39_c.specs.Resplitting.{GivesSplit};

use crate::answer::ShamirAnswer;
use crate::clearing::RESPLIT;
use s39_backup::Plan;
use s39_clearing::clear_stack;
use s39_creating::laws::created_backups_are_split_anew;
use s39_creating::resplit_lines;

/// Splits the encrypted secret of an extendable backup anew, by another plan, and gives the mnemonics of this new backup.
/// `plan` is the text of the new plan, and `lines` has mnemonics of the old backup. The new mnemonics go to the start of
/// `mnemonics`, in the order of groups and members, and a line feed follows each. `written` is their length in bytes, and
/// `first` is their number. The bytes after them are unchanged.
///
/// The call takes no passphrase and derives no key. The new backup has the flag and the exponent of the old one, and gives the same secret
/// with each passphrase. `random` has as many bytes as `shamir_create` takes by this plan for a secret as long as the value of a
/// mnemonic, and they are used in the same order. The first two give the new identifier.
///
/// The call refuses with the first of these that applies, and `mnemonics` is then unchanged:
///
/// - 31 to 34 (the plan), then the code of the first refused line (11 to 15, 21 to 28, 71), then 29, 30;
/// - 51 (a digest mismatch in the first quorum), 67 (the old backup isn't extendable);
/// - 43 (the random bytes), with the number needed, 68 (they give the identifier of the old backup);
/// - 1, if `mnemonics` is too short.
///
/// ```c
/// shamir_answer answer = shamir_resplit("3of5", 4, lines, lines_bytes, random, random_bytes, mnemonics, sizeof mnemonics);
/// ```
#[unsafe(no_mangle)]
pub extern "C" fn shamir_resplit(
    plan: &[u8],
    lines: &[u8],
    random: &[u8],
    mnemonics: &mut [u8],
) -> ShamirAnswer
    ensures splits { GivesSplit
        (λ threshold groups. IsResplitOutput threshold groups random.now (whole lines.now))
        plan.now mnemonics.old mnemonics.new result }
    // For mnemonics of a created backup, the result is what a creation gives for its secret, passphrase and options, by the
    // plan and these random bytes. Or it is why nothing is written.
    ensures created { GivesSplit
        (λ threshold groups. ResplitsCreated threshold groups random.now (whole lines.now))
        plan.now mnemonics.old mnemonics.new result }
{
    created_backups_are_split_anew();
    let answer = resplit_answer(plan, lines, random, mnemonics);
    let _ = clear_stack::<RESPLIT>();
    answer
}

/// The answer of `shamir_resplit`.
#[inline(never)]
fn resplit_answer(plan: &[u8], lines: &[u8], random: &[u8], mnemonics: &mut [u8]) -> ShamirAnswer
    ensures { GivesSplit
        (λ threshold groups. IsResplitOutput threshold groups random.now (whole lines.now))
        plan.now mnemonics.old mnemonics.new result }
{
    match Plan::parse_bytes(plan) {
        Ok(plan) => resplit_by(&plan, lines, random, mnemonics),
        Err(error) => ShamirAnswer::from(error),
    }
}

/// Splits the encrypted secret anew, by this plan.
fn resplit_by(plan: &Plan, lines: &[u8], random: &[u8], mnemonics: &mut [u8]) -> ShamirAnswer
    ensures { GivesOutputAs (λ text. created (length text) (lines_in text))
        (IsResplitOutput plan.now.group_threshold plan.now.groups.items random.now (whole lines.now))
        mnemonics.old mnemonics.new result }
{
    match resplit_lines(plan, lines, random, mnemonics) {
        Ok(put) => ShamirAnswer::created(put),
        Err(cause) => ShamirAnswer::from(cause),
    }
}
