//! The command `status`: what is at hand of each group, and whether it is enough.
ghost use Rattle.std.specs.Prelude.{◌≡◌, ◌≢◌, ◌<◌, ◌≤◌, [], Ok, Err, IfOk, IfErr, slice_index_or};
ghost use Rattle.std.specs.Fmt.{decimal};
ghost use Rattle.s39_set.specs.Names.{most_groups};
ghost use Rattle.s39_set.specs.Status.{group_status_of};
ghost use Rattle.s39_input.specs.Input.{whole};
ghost use Rattle.s39_input.specs.Runs.{Runs};
ghost use Rattle.s39_reading.specs.Slices.{PutsStatus};
ghost use Rattle.s39_input.specs.Accepted.{IsReadAs};
ghost use Rattle.s39_reading.specs.Status.{IsStatusOf, IsStatusOutput, first_line, group_line, group_text, lines_of_status, status_text};

use s39_input::{
    Counting, DeviceFailure, Fault, Line, NoOutput, Refusal, push_field, push_names, put_lines,
    read_set, set_in, write_lines,
};
use s39_set::{GroupStatus, MAX_GROUPS, SetLack, ShareSet, Status, group_status_of, status_of};
use std::io::{Read, Write};

/// How many lines there are: the first one, and one for each group, which may be empty.
const LINES: u16 = MAX_GROUPS as u16 + 1;

/// Writes which members of each group are at hand, and how many groups are complete. It needs no passphrase. The first
/// line is `groups C of R`: `C` groups have at least their member threshold of shares, and `R` is the group threshold.
///
/// A line `group G members N of T NAMES` follows for each group of which a share is at hand, in ascending order. `N`
/// members are at hand, `T` is the member threshold, and `NAMES` are their names in ascending order, joined by plus
/// signs. Repeats count once. Blank lines and comments are skipped. A comment starts with `#`, after any spaces, tabs
/// and carriage returns.
///
/// The function returns the numbers of the first line. There are enough shares if and only if `C` is at least `R`. The
/// first error that applies is returned instead, and then nothing is written:
///
/// - what `s39_input::read_set` refuses: a line, or a failed read;
/// - `Lack` if there are no shares.
///
/// If a write fails or takes no byte, the fault is `Device(Write)`, and a beginning of the lines is written. The caller
/// keeps both `failures()` below `u64::MAX`.
///
/// ```rust
/// let mut input = Counting::new(
///     b"academic aluminum beard leader chest elite grant group club deploy increase divorce \
///     puny cylinder romp frequent crush ruler erode bucket\n"
///         .as_slice(),
/// );
/// let mut text = Vec::new(rt.alloc());
/// let status = run_status(&mut input, &mut Counting::new(&mut text))?;
/// assert!(rt; !status.is_enough());
/// let lines = b"groups 1 of 2\ngroup 1 members 1 of 1 1.0\n";
/// assert_eq!(rt; text.as_slice(), lines.as_slice());
/// ```
pub fn run_status<R: Read, W: Write>(
    input: &mut Counting<R>,
    output: &mut Counting<W>,
) -> Result<Status, Fault>
    requires readable { input.old.failures < u64.MAX }
    requires writable { output.old.failures < u64.MAX }
    ensures runs { Runs R.remaining W.contents IsStatusOutput
        input.old input.new output.old output.new result }
    // Of any devices.
    ensures untouched { IfErr result (λ fault.
        fault.refusal ≢ Refusal.Device DeviceFailure.Write → output.new ≡ output.old) }
{
    let set = read_set(input)?;
    let Some(status) = status_of(&set) else {
        return Err(Fault::from(SetLack::NoShares));
    };
    write_lines(output, LINES, &|index| line_at(&set, status, index))?;
    Ok(status)
}

/// What `status_lines` put into a slice.
#[derive(Clone, Copy, Debug, PartialEq, Eq)]
pub struct WrittenStatus {
    /// The length of its text in bytes.
    pub written: usize,
    /// The numbers of its first line.
    pub status: Status,
}

/// Puts the text that `run_status` writes for these lines at the front of `text`. It returns the length of that text in
/// bytes, and the numbers of its first line. The bytes of `text` after it are unchanged.
///
/// The first error that applies is returned, and then `text` is unchanged: the first refused line with its number,
/// `Lack` if there are no shares, or `TooShort`, with the number of bytes needed, if the text doesn't fit.
///
/// ```rust
/// let line =
///     b"academic aluminum beard leader chest elite grant group club deploy increase divorce \
///     puny cylinder romp frequent crush ruler erode bucket\n";
/// let mut text = [0; 100];
/// let answer = status_lines(line, &mut text)?;
/// assert_eq!(rt; (answer.written, answer.status.is_enough()), (41, false));
/// assert!(rt; text.starts_with(b"groups 1 of 2\ngroup 1 members 1 of 1 1.0\n"));
/// ```
pub fn status_lines(lines: &[u8], text: &mut [u8]) -> Result<WrittenStatus, NoOutput>
    ensures { PutsStatus (IsStatusOutput (whole lines.now)) text.old text.new result }
{
    let set = shares_in(lines)?;
    set_status(&set, text)
}

/// Puts the text that `run_status` writes for lines with these shares at the front of `text`. It returns the length of that
/// text in bytes, and the numbers of its first line. The bytes of `text` after it are unchanged.
///
/// The first error that applies is returned, and then `text` is unchanged: `Lack` if the set has no share, or `TooShort`, with
/// the number of bytes needed, if the text doesn't fit.
///
/// ```rust
/// let line =
///     b"academic aluminum beard leader chest elite grant group club deploy increase divorce \
///     puny cylinder romp frequent crush ruler erode bucket\n";
/// let set = checked_set_in(b"", line)?;
/// let mut text = [0; 100];
/// assert_eq!(rt; set_status(&set, &mut text)?.written, 41);
/// assert!(rt; text.starts_with(b"groups 1 of 2\ngroup 1 members 1 of 1 1.0\n"));
/// ```
pub fn set_status(set: &ShareSet, text: &mut [u8]) -> Result<WrittenStatus, NoOutput>
    ensures { PutsStatus (IsStatusOf set.now) text.old text.new result }
{
    let Some(status) = status_of(set) else {
        return Err(NoOutput::from(Fault::from(SetLack::NoShares)));
    };
    let written = put_lines(text, LINES, &|index| line_at(set, status, index))?;
    Ok(WrittenStatus { written, status })
}

/// The set of the shares of lines in memory.
fn shares_in(lines: &[u8]) -> Result<ShareSet, Fault>
    ensures accepted { IfOk result (λ set. IsReadAs (whole lines.now) (Ok set)) }
    ensures refused { IfErr result (λ fault. IsStatusOutput (whole lines.now) [] (Err fault)) }
{
    Ok(set_in(lines)?)
}

/// The line at an index: the first line, or what is written for a group.
fn line_at(set: &ShareSet, status: Status, index: u16) -> Line
    requires { index ≤ most_groups }
    ensures { result.items ≡ slice_index_or (lines_of_status set.now status) index [] }
{
    if index == 0 {
        first_line(status)
    } else {
        group_text(set, (index - 1) as u8)
    }
}

/// The first line.
fn first_line(status: Status) -> Line
    ensures { result.items ≡ first_line status }
{
    let mut line = Line::new();
    push_field(&mut line, b"groups ", u16::from(status.complete));
    push_field(&mut line, b" of ", u16::from(status.required));
    line.push(b'\n');
    line
}

/// The line of a group, or nothing if none of its shares is at hand.
fn group_text(set: &ShareSet, group: u8) -> Line
    requires { group < most_groups }
    ensures { result.items ≡ group_text (group_status_of set.now group) }
{
    match group_status_of(set, group) {
        Some(status) => group_line(&status),
        None => Line::new(),
    }
}

/// The line of a group.
fn group_line(status: &GroupStatus) -> Line
    ensures { result.items ≡ group_line status.now }
{
    let names = status.names.pairs();
    let mut line = Line::new();
    push_field(&mut line, b"group ", u16::from(status.group));
    push_field(&mut line, b" members ", names.len() as u16);
    push_field(&mut line, b" of ", u16::from(status.threshold));
    line.push(b' ');
    push_names(&mut line, names);
    line.push(b'\n');
    line
}
