//! The call that repairs a line.
ghost use Rattle.std.specs.Prelude.{◌≡◌, length};
ghost use Rattle.s39_input.specs.Repair.{shares_of};
ghost use Rattle.s39_c.specs.Repairing.{GivesLines, GivesRepaired};

use crate::answer::ShamirAnswer;
use crate::clearing::REPAIR;
use s39_clearing::clear_stack;
use s39_input::{WrittenLines, lines_of_repaired, put};
use s39_repair::{Repaired, repair};

/// Finds the mnemonics that fit a line of marks, in ascending order of their words' indices, and writes each with a line
/// feed after it.
///
/// A mark is a word of the list, or letters followed by one `?`, which stand for every word that begins with them. A
/// place is open if its mark stands for more than one word. A mnemonic fits if `shamir_parse` accepts it, and it has at
/// each place a word for which the mark stands. At most two fit, and two only if the second word is open. The mnemonics
/// go to the start of `mnemonics`, at most 1,980 bytes, and the bytes after them are unchanged. `first` is their number.
///
/// The call refuses with the first of these that applies, and `mnemonics` is then unchanged:
///
/// - 11 (a mark stands for no word), 12 (no mnemonic has as many words);
/// - 19 (more than three places are open; `first` is their number);
/// - 17 (one to three places are open, and no mnemonic fits);
/// - 18 (no place is open, the checksum is bad, and if one word is wrong, it is that at position `first`), 13 (more than
///   one word is wrong), 14, 15 (as `shamir_parse` answers);
/// - 1 (`mnemonics` is too short).
///
/// ```c
/// char mnemonics[SHAMIR_REPAIRED_BYTES_MAX];
/// shamir_answer answer = shamir_repair(line, strlen(line), mnemonics, sizeof mnemonics);
/// ```
#[unsafe(no_mangle)]
pub extern "C" fn shamir_repair(line: &[u8], mnemonics: &mut [u8]) -> ShamirAnswer
    ensures { GivesRepaired line.now mnemonics.old mnemonics.new result }
{
    let answer = repair_answer(line, mnemonics);
    let _ = clear_stack::<REPAIR>();
    answer
}

/// The answer of `shamir_repair`.
#[inline(never)]
fn repair_answer(line: &[u8], mnemonics: &mut [u8]) -> ShamirAnswer
    ensures { GivesRepaired line.now mnemonics.old mnemonics.new result }
{
    match repair(line) {
        Ok(repaired) => give_lines(&repaired, mnemonics),
        Err(error) => ShamirAnswer::from(error),
    }
}

/// Writes the mnemonics to the start of an output buffer if they fit, and refuses the buffer otherwise.
fn give_lines(repaired: &Repaired, out: &mut [u8]) -> ShamirAnswer
    ensures { GivesLines repaired.now out.old out.new result }
{
    let lines = lines_of_repaired(repaired);
    if out.len() < lines.len() {
        return ShamirAnswer::too_short(lines.len());
    }
    put(out, 0, &lines);
    ShamirAnswer::created(WrittenLines {
        written: lines.len(),
        lines: count_of(repaired),
    })
}

/// How many mnemonics fit.
fn count_of(repaired: &Repaired) -> usize
    ensures { result ≡ length (shares_of repaired.now) }
{
    if repaired.second.is_some() { 2 } else { 1 }
}
