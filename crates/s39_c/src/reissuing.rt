//! The call that computes lost mnemonics from others of their backup.
ghost use Rattle.s39_input.specs.Input.{whole};
ghost use Rattle.s39_creating.specs.Reissue.{IsReissueOutput, ReissuesCreated};
ghost use Rattle.s39_c.specs.Answers.{GivesOutput};
ghost use Rattle.s39_c.specs.Reissuing.{GivesNamed, GivesReissued};

use crate::answer::ShamirAnswer;
use crate::clearing::REISSUE;
use s39_backup::Plan;
use s39_clearing::clear_stack;
use s39_creating::reissue_lines;
use s39_set::{Quorum, parse_names};

/// Computes mnemonics of a backup from those in `lines`. `plan` is the text of the plan of the backup, or of that plan
/// with more members in some groups; the added members are new members of this backup. `names` lists the names of the
/// wanted mnemonics, each once and in ascending order, as `0.1+2.0`. The mnemonics go to the start of `mnemonics` in
/// this order, and a line feed follows each. `written` is their length in bytes; the bytes after them are unchanged.
/// The call needs no passphrase.
///
/// The call refuses with the first of these that applies, and `mnemonics` is then unchanged:
///
/// - 31 to 34 (the plan), 63 (`names` isn't a list of names), 64 (a name isn't in the plan);
/// - the code of the first refused line (11 to 15, 21 to 28, 71), then 29, 65 (the mnemonics are of another plan);
/// - for each name in turn, 66 (its mnemonic isn't determined) or 51 (a digest mismatch);
/// - 1, if `mnemonics` is too short.
///
/// ```c
/// shamir_answer answer = shamir_reissue("2of3", 4, "0.1", 3, lines, lines_bytes, mnemonics, sizeof mnemonics);
/// ```
#[unsafe(no_mangle)]
pub extern "C" fn shamir_reissue(
    plan: &[u8],
    names: &[u8],
    lines: &[u8],
    mnemonics: &mut [u8],
) -> ShamirAnswer
    ensures reissues { GivesReissued
        (λ threshold groups wanted. IsReissueOutput threshold groups wanted (whole lines.now))
        plan.now names.now mnemonics.old mnemonics.new result }
    // For names of the plan and mnemonics of a backup created by it, the result is the backup's own mnemonics with these
    // names. Or it is the refusal of the first name whose mnemonic isn't determined, or of lines without a mnemonic.
    ensures created { GivesReissued
        (λ threshold groups wanted. ReissuesCreated threshold groups wanted (whole lines.now))
        plan.now names.now mnemonics.old mnemonics.new result }
{
    let answer = reissue_answer(plan, names, lines, mnemonics);
    let _ = clear_stack::<REISSUE>();
    answer
}

/// The answer of `shamir_reissue`.
#[inline(never)]
fn reissue_answer(plan: &[u8], names: &[u8], lines: &[u8], mnemonics: &mut [u8]) -> ShamirAnswer
    ensures reissues { GivesReissued
        (λ threshold groups wanted. IsReissueOutput threshold groups wanted (whole lines.now))
        plan.now names.now mnemonics.old mnemonics.new result }
    // For names of the plan and mnemonics of a backup created by it, the result is the backup's own mnemonics with these
    // names. Or it is the refusal of the first name whose mnemonic isn't determined, or of lines without a mnemonic.
    ensures created { GivesReissued
        (λ threshold groups wanted. ReissuesCreated threshold groups wanted (whole lines.now))
        plan.now names.now mnemonics.old mnemonics.new result }
{
    match Plan::parse_bytes(plan) {
        Ok(plan) => reissue_named(&plan, names, lines, mnemonics),
        Err(error) => ShamirAnswer::from(error),
    }
}

/// Computes the mnemonics with the names that a text lists, by this plan.
fn reissue_named(plan: &Plan, names: &[u8], lines: &[u8], mnemonics: &mut [u8]) -> ShamirAnswer
    ensures reissues { GivesNamed
        (λ wanted. IsReissueOutput plan.now.group_threshold plan.now.groups.items wanted (whole lines.now))
        names.now mnemonics.old mnemonics.new result }
    ensures created { GivesNamed
        (λ wanted. ReissuesCreated plan.now.group_threshold plan.now.groups.items wanted (whole lines.now))
        names.now mnemonics.old mnemonics.new result }
{
    match parse_names(names) {
        Ok(wanted) => reissue(plan, &wanted, lines, mnemonics),
        Err(error) => ShamirAnswer::from(error),
    }
}

/// Computes the mnemonics with these names, by this plan.
fn reissue(plan: &Plan, names: &Quorum, lines: &[u8], mnemonics: &mut [u8]) -> ShamirAnswer
    ensures reissues { GivesOutput
        (IsReissueOutput plan.now.group_threshold plan.now.groups.items names.now (whole lines.now))
        mnemonics.old mnemonics.new result }
    ensures created { GivesOutput
        (ReissuesCreated plan.now.group_threshold plan.now.groups.items names.now (whole lines.now))
        mnemonics.old mnemonics.new result }
{
    match reissue_lines(plan, names, lines, mnemonics) {
        Ok(put) => ShamirAnswer::done(put.written),
        Err(cause) => ShamirAnswer::from(cause),
    }
}
