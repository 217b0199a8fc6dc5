//! The command `repair`: the mnemonics that fit each line of marks.
ghost use Rattle.std.specs.Prelude.{◌≡◌, ◌+◌, ◌<◌, ◌≤◌, ◌++◌, List, ℕ, length, true, Ok, Err, IfOk, IfErr};
ghost use Rattle.s39_repair.specs.Answer.{Repairs};
ghost use Rattle.s39_words.specs.Layout.{longest_text};
ghost use Rattle.s39_words.specs.Printing.{IsPrinted};
ghost use Rattle.s39_input.specs.Create.{ArePrintedLines};
ghost use Rattle.s39_input.specs.Input.{ended_line, longest_line};
ghost use Rattle.s39_input.specs.Repair.{IsRepairOutput, MarksSay, shares_of};
ghost use Rattle.s39_input.specs.Runs.{Runs};

use crate::device::Counting;
use crate::each_line::{NoAnswer, answered};
use crate::fault::{Fault, LineRefusal};
use crate::lines::{TakeLine, is_skipped, take_lines};
use crate::output::{WriteFailed, write_text};
use arrayvec::ArrayVec;
use s39_repair::laws::{one_answer, some_answer};
use s39_repair::{Repaired, repair};
use s39_words::laws::{every_share_has_a_printed_form, one_printed_form};
use s39_words::{MAX_TEXT_BYTES, Share, print};
use std::io::{Read, Write};

/// The most bytes of the mnemonics that fit a line, with a line feed after each: two fit at most.
pub const REPAIRED_BYTES: usize = 2 * (MAX_TEXT_BYTES + 1);

/// The mnemonics that fit a line, with a line feed after each.
pub type RepairedLines = ArrayVec<u8, REPAIRED_BYTES>;

/// Adds the mnemonic of a share, and a line feed.
fn push_mnemonic(lines: &mut RepairedLines, share: &Share)
    requires room { length lines.old.items ≤ longest_text + 1 }
    ensures line { (text : List ℕ) × IsPrinted text share.now
        × (lines.new.items ≡ lines.old.items ++ ended_line text) }
    ensures short { length lines.new.items ≤ length lines.old.items + (longest_text + 1) }
{
    let text = print(share);
    lines.try_extend_from_slice(&text).unwrap();
    lines.push(b'\n');
}

/// Prints the mnemonics that fit a line, in their order, with a line feed after each.
pub fn lines_of_repaired(repaired: &Repaired) -> RepairedLines
    ensures { ArePrintedLines (shares_of repaired.now) result.items }
{
    let mut lines = RepairedLines::new();
    push_mnemonic(&mut lines, &repaired.first);
    if let Some(second) = &repaired.second {
        push_mnemonic(&mut lines, second);
    }
    lines
}

/// The mnemonics that fit the marks of a line, or `None` if the line is skipped.
fn repaired_in(line: &[u8]) -> Result<Option<Repaired>, LineRefusal>
    requires { length line.now ≤ longest_line }
    ensures held { IfOk result (λ repaired. MarksSay Repairs line.now (Ok repaired)) }
    ensures refused { IfErr result (λ refusal. MarksSay Repairs line.now (Err refusal)) }
{
    if is_skipped(line) {
        return Ok(None);
    }
    match repair(line) {
        Ok(repaired) => Ok(Some(repaired)),
        Err(error) => Err(LineRefusal::Marks(error)),
    }
}

/// An output, and whether one mnemonic fitted each line so far.
#[derive(Drop)]
struct Repairing<'o, W> {
    output: &'o mut Counting<W>,
    one_each: bool,
}

/// An output takes a line of marks by writing the mnemonics that fit.
impl<W: Write> TakeLine for Repairing<'_, W> {
    ghost use Rattle.std.specs.Prelude.{◌≡◌, ◌<◌, ◌-◌, ◌^◌, ◌&&◌, refl};
    ghost use Rattle.std.specs.List.{list_all};
    ghost use Rattle.std.proofs.Common.{inl};
    ghost use Rattle.s39_input.specs.EachLine.{AnswersLine};
    ghost use Rattle.s39_input.specs.Repair.{MarksSay, RepairsTo, fits_one, mnemonics_text};
    ghost use Rattle.s39_input.specs.declared.each_line.NoAnswer.TheVariants.{Line as AtLine};
    ghost use Rattle.s39_input.specs.declared.fault.LineRefusal.TheVariants.{TooLong};

    type Refusal = NoAnswer;

    ghost can_take = { λ repairing. repairing.output.now.failures < 2 ^ 64 - 1 };

    ghost takes = { AnswersLine W.contents (MarksSay RepairsTo) mnemonics_text
        (λ repairing. repairing.output.now)
        (λ old said new. (new.output.ghost_name ≡ old.output.ghost_name)
        × (new.one_each ≡ (old.one_each && list_all fits_one said))) };

    ghost length_refusal = { AtLine TooLong };

    fn take_line(&mut self, line: &[u8]) -> Result<(), NoAnswer> {
        match repaired_in(line) {
            Ok(Some(repaired)) => {
                let lines = lines_of_repaired(&repaired);
                match write_text(self.output, &lines) {
                    Ok(()) => {
                        if repaired.second.is_some() {
                            self.one_each = false;
                        }
                        Ok(())
                    }
                    Err(WriteFailed) => Err(NoAnswer::WriteFailed),
                }
            }
            Ok(None) => Ok(()),
            Err(refusal) => Err(NoAnswer::Line(refusal)),
        }
    }

    fn too_long() -> NoAnswer {
        NoAnswer::Line(LineRefusal::TooLong)
    }

    ghost refuses_long = { λ repairing line long. (inl (long, refl), refl) };
}

/// Writes the mnemonics that fit each line of marks, and says whether one fitted each.
fn repair_lines<R: Read, W: Write>(
    input: &mut Counting<R>,
    repairing: &mut Repairing<'_, W>,
) -> Result<bool, Fault>
    requires readable { input.old.failures < u64.MAX }
    requires writable { repairing.old.output.now.failures < u64.MAX }
    requires start { repairing.old.one_each ≡ true }
    ensures same_output { repairing.new.output.ghost_name ≡ repairing.old.output.ghost_name }
    ensures runs { Runs R.remaining W.contents IsRepairOutput input.old input.new
        repairing.old.output.now repairing.new.output.now result }
{
    one_answer();
    some_answer();
    one_printed_form();
    every_share_has_a_printed_form();
    let stopped = take_lines(input, repairing);
    answered(repairing.one_each, stopped)
}

/// Writes the mnemonics that fit each line of the input, in the order of the lines (SLIP-0039, "Format of the share
/// mnemonic"). A line has marks in place of words: a word of the list, or letters followed by one `?`, which stand for
/// every word that begins with them. [`repair`] says which mnemonics fit. Those of one line ascend by their words'
/// indices, and each is printed as by [`print`], with a line feed after it. Blank lines and comments are skipped. A
/// comment starts with `#`, after any spaces, tabs and carriage returns.
///
/// The answer is `true` if not more than one mnemonic fits any line, and `false` if two fit some line.
///
/// The run stops at the first error:
///
/// - a line is refused, as `Marks` for its marks or as `TooLong` (more than 1,024 bytes): the fault has its number, and
///   the mnemonics for the lines before it are written;
/// - a read fails: the fault is `Device(Read)`, and the answers to the lines that ended before are written;
/// - a write fails or takes no byte: the fault is `Device(Write)`, and a beginning of the output is written.
///
/// The caller keeps both `failures()` below `u64::MAX`.
///
/// ```rust
/// let mut input = Counting::new(
///     b"duckling enlarge academic academic ? result length solution fridge kidney coal \
///     ? deal husband erode duke ajar critical decision keyb?\n"
///         .as_slice(),
/// );
/// let mut text = Vec::new(rt.alloc());
/// assert!(rt; run_repair(&mut input, &mut Counting::new(&mut text))?);
/// assert!(rt; text.starts_with(b"duckling enlarge academic academic agency result length "));
/// ```
pub fn run_repair<R: Read, W: Write>(
    input: &mut Counting<R>,
    output: &mut Counting<W>,
) -> Result<bool, Fault>
    requires readable { input.old.failures < u64.MAX }
    requires writable { output.old.failures < u64.MAX }
    ensures { Runs R.remaining W.contents IsRepairOutput input.old input.new output.old output.new
        result }
{
    let mut repairing = Repairing {
        output,
        one_each: true,
    };
    repair_lines(input, &mut repairing)
}
