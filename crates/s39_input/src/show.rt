//! The command `show`: the fields of each mnemonic of an input, a line for each.
ghost use Rattle.std.specs.Prelude.{◌≡◌, ◌<◌, ◌≤◌, [], length};
ghost use Rattle.s39_input.specs.declared.show.TheConstants.{HEADER_BYTES};
ghost use Rattle.s39_input.specs.Runs.{Runs};
ghost use Rattle.s39_input.specs.Show.{IsShowOutput, header_text, show_line};

use crate::device::Counting;
use crate::each_line::{NoAnswer, answered};
use crate::fault::{Fault, LineRefusal};
use crate::lines::{TakeLine, share_in, take_lines};
use crate::output::{Line, WriteFailed, push_field, push_hex, push_text, write_text};
use s39_words::Share;
use std::io::{Read, Write};

/// Room for the fields before the value: their names, and eight numbers of at most five digits.
const HEADER_BYTES: usize = 256;

fn push_header(line: &mut Line, share: &Share)
    requires { line.old.items ≡ [] }
    ensures text { line.new.items ≡ header_text share.now }
    ensures room { length line.new.items ≤ HEADER_BYTES }
{
    push_field(line, b"identifier ", share.id());
    push_field(line, b" extendable ", u16::from(share.extendable()));
    push_field(line, b" exponent ", u16::from(share.exponent()));
    push_field(line, b" group ", u16::from(share.group_index()));
    push_field(
        line,
        b" group-threshold ",
        u16::from(share.group_threshold()),
    );
    push_field(line, b" group-count ", u16::from(share.group_count()));
    push_field(line, b" member ", u16::from(share.member_index()));
    push_field(
        line,
        b" member-threshold ",
        u16::from(share.member_threshold()),
    );
}

/// The line that shows a share.
fn shown_line(share: &Share) -> Line
    ensures { result.items ≡ show_line share.now }
{
    let mut line = Line::new();
    push_header(&mut line, share);
    push_text(&mut line, b" value ");
    push_hex(&mut line, share.value().as_slice());
    line.push(b'\n');
    line
}

/// An output takes a line by writing the fields of the share that it holds.
impl<W: Write> TakeLine for Counting<W> {
    ghost use Rattle.std.specs.Prelude.{◌≡◌, ◌<◌, ◌-◌, ◌^◌, refl};
    ghost use Rattle.s39_words.specs.Reading.{reading};
    ghost use Rattle.s39_input.specs.EachLine.{AnswersLine};
    ghost use Rattle.s39_input.specs.Lines.{share_in};
    ghost use Rattle.s39_input.specs.Theory.LongLines.{long_is_refused};
    ghost use Rattle.s39_input.specs.Show.{line_text};
    ghost use Rattle.s39_input.specs.declared.each_line.NoAnswer.TheVariants.{Line as AtLine};
    ghost use Rattle.s39_input.specs.declared.fault.LineRefusal.TheVariants.{TooLong, Word};

    type Refusal = NoAnswer;

    ghost can_take = { λ output. output.failures < 2 ^ 64 - 1 };

    ghost takes = { AnswersLine W.contents (λ line said. share_in line ≡ said) line_text (λ output. output)
        (λ old said new. Unit {0}) };

    ghost length_refusal = { AtLine TooLong };

    fn take_line(&mut self, line: &[u8]) -> Result<(), NoAnswer> {
        match share_in(line) {
            Ok(Some(share)) => match write_text(self, shown_line(&share).as_slice()) {
                Ok(()) => Ok(()),
                Err(WriteFailed) => Err(NoAnswer::WriteFailed),
            },
            Ok(None) => Ok(()),
            Err(refusal) => Err(NoAnswer::Line(refusal)),
        }
    }

    fn too_long() -> NoAnswer {
        NoAnswer::Line(LineRefusal::TooLong)
    }

    ghost refuses_long = { λ output line long. (long_is_refused Word line (reading line) long, refl) };
}

/// Writes a line for each mnemonic of the input, with its fields, in the order of the input's lines (SLIP-0039, "Format
/// of the share mnemonic"). Blank lines and comments are skipped. A comment starts with `#`, after any spaces, tabs and
/// carriage returns.
///
/// The run stops at the first error:
///
/// - a line is refused, by a word error or as `TooLong` (more than 1,024 bytes): the fault has its number, and the
///   lines for the mnemonics before it are written;
/// - a read fails: the fault is `Device(Read)`, and the answers to the lines that ended before are written;
/// - a write fails or takes no byte: the fault is `Device(Write)`, and a beginning of the output is written.
///
/// The caller keeps both `failures()` below `u64::MAX`.
///
/// ```rust
/// let mut input = Counting::new(
///     b"duckling enlarge academic academic agency result length solution fridge kidney coal \
///     piece deal husband erode duke ajar critical decision keyboard\n"
///         .as_slice(),
/// );
/// let mut text = Vec::new(rt.alloc());
/// run_show(&mut input, &mut Counting::new(&mut text))?;
/// assert!(rt; text.starts_with(b"identifier 7945 extendable 0 exponent 0 group 0 "));
/// ```
pub fn run_show<R: Read, W: Write>(
    input: &mut Counting<R>,
    output: &mut Counting<W>,
) -> Result<(), Fault>
    requires readable { input.old.failures < u64.MAX }
    requires writable { output.old.failures < u64.MAX }
    ensures { Runs R.remaining W.contents IsShowOutput input.old input.new output.old output.new
        result }
{
    answered((), take_lines(input, output))
}
