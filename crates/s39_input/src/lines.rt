//! The lines of an input, and what they hold.
ghost use Rattle.std.specs.Prelude.{◌≡◌, ◌≢◌, ℕ, ◌+◌, ◌<◌, ◌≤◌, List, [], ◌∷◌, ◌++◌, All, length, find, not, Bool, true, Ok, Err, IfErr, OnOk, min};
ghost use Rattle.s39_words.specs.Spelling.{is_separator};
ghost use Rattle.s39_input.specs.Fault.{stop_failures};
ghost use Rattle.s39_input.specs.Input.{longest_line, is_skipped, whole};
ghost use Rattle.s39_input.specs.Lines.{share_in};
ghost use Rattle.s39_input.specs.Midway.{RunsOver, ReachesOrStops, IsMidway};
ghost use Rattle.s39_input.specs.Runs.{OfInput};

use crate::device::Counting;
use crate::fault::{LineRefusal, RefusedLine, Stop};
use arrayvec::ArrayVec;
use memchr::memchr;
use s39_words::{Share, is_separator, parse};
use std::io::Read;

/// The most bytes of a line, not counting its line feed.
pub(crate) const MAX_LINE_BYTES: usize = 1024;

/// How many bytes a read asks for at most.
pub const PIECE: usize = 4096;

/// What a run does with the lines of its input, in their order.
pub(crate) trait TakeLine {
    ghost use Rattle.std.specs.Prelude.{ℕ, ◌<◌, ◌≤◌, List, length, Result, Err, OnOk};
    ghost use Rattle.s39_input.specs.Input.{longest_line};

    /// Why a line isn't taken.
    type Refusal;

    // A line may be taken.
    ghost can_take: { Self → Type 0 };

    // A line leads to this answer and this state.
    ghost takes: { Self → List ℕ → Result (Unit {0}) Self.Refusal → Self → Type 0 };

    // The refusal of a line that is too long.
    ghost length_refusal: { Self.Refusal };

    /// Takes a line, or refuses it. It isn't called again after a refusal.
    fn take_line(&mut self, line: &[u8]) -> Result<(), Self::Refusal>
        requires ready { can_take self.old }
        requires short { length line.now ≤ longest_line }
        ensures taken { takes self.old line.now result self.new }
        ensures ready { OnOk result (can_take self.new) };

    /// The refusal of a line of more than 1,024 bytes.
    fn too_long() -> Self::Refusal
        ensures { result ≡ length_refusal };

    ghost refuses_long: { (taker : Self) (line : List ℕ) → longest_line < length line
        → takes taker line (Err length_refusal) taker };
}

/// The first byte of the line that isn't a separator.
fn first_other_byte(line: &[u8]) -> Option<u8>
    ensures { result ≡ find (λ b. not (is_separator b)) line.now }
{
    line.iter().copied().find(|byte| !is_separator(*byte))
}

/// Whether a line is blank, or a comment.
pub(crate) fn is_skipped(line: &[u8]) -> bool
    ensures { result ≡ is_skipped line.now }
{
    match first_other_byte(line) {
        None => true,
        Some(byte) => byte == b'#',
    }
}

/// The share that a line holds, or `None` if the line is skipped.
pub(crate) fn share_in(line: &[u8]) -> Result<Option<Share>, LineRefusal>
    requires { length line.now ≤ longest_line }
    ensures { share_in line.now ≡ result }
{
    if is_skipped(line) {
        return Ok(None);
    }
    match parse(line) {
        Ok(share) => Ok(Some(share)),
        Err(error) => Err(LineRefusal::Word(error)),
    }
}

/// The line that hasn't ended yet, and its number.
#[derive(Drop)]
struct Unfinished {
    line: ArrayVec<u8, MAX_LINE_BYTES>,
    number: u64,
}

/// Takes the line with this number, and goes on to the next number.
fn take_numbered<T: TakeLine>(
    taker: &mut T,
    line: &[u8],
    number: &mut u64,
) -> Result<(), RefusedLine<T::Refusal>>
    requires ready { T.can_take taker.old }
    requires short { length line.now ≤ longest_line }
    ensures taken { OnOk result (T.takes taker.old line.now (Ok tt) taker.new) }
    ensures next { OnOk result (number.new ≡ min (number.old + 1) u64.MAX) }
    ensures refused { IfErr result (λ refused.
        T.takes taker.old line.now (Err refused.refusal) taker.new
        × (refused.number ≡ number.old)) }
    ensures ready { OnOk result (T.can_take taker.new) }
{
    if let Err(refusal) = taker.take_line(line) {
        return Err(RefusedLine {
            number: *number,
            refusal,
        });
    }
    *number = number.saturating_add(1);
    Ok(())
}

impl Unfinished {
    /// Keeps a part of the line that has no line feed in it.
    fn keep<T: TakeLine>(&mut self, part: &[u8]) -> Result<(), RefusedLine<T::Refusal>>
        requires { All (λ b. b ≢ 10) part.now }
        ensures taken { (came : List ℕ) (first : T) (now : T)
            → IsMidway T.takes came self.old.line.items self.old.number first now
            → ReachesOrStops T.takes (came ++ part.now) self.new.line.items self.new.number
            first now result }
        ensures kept { OnOk result ((self.new.line.items ≡ self.old.line.items ++ part.now)
            × (self.new.number ≡ self.old.number)) }
    {
        if self.line.try_extend_from_slice(part).is_ok() {
            Ok(())
        } else {
            Err(RefusedLine {
                number: self.number,
                refusal: T::too_long(),
            })
        }
    }

    /// Takes the line that a line feed ends after this part, and begins the next. A line that lies in one piece of
    /// the input is lent and not copied.
    fn end_line<T: TakeLine>(
        &mut self,
        part: &[u8],
        taker: &mut T,
    ) -> Result<(), RefusedLine<T::Refusal>>
        requires ready { T.can_take taker.old }
        requires part { All (λ b. b ≢ 10) part.now }
        ensures taken { (came : List ℕ) (first : T)
            → IsMidway T.takes came self.old.line.items self.old.number first taker.old
            → ReachesOrStops T.takes (came ++ part.now ++ 10 ∷ [])
            self.new.line.items self.new.number first taker.new result }
        ensures ready { OnOk result (T.can_take taker.new) }
    {
        if self.line.is_empty() && part.len() <= MAX_LINE_BYTES {
            return take_numbered(taker, part, &mut self.number);
        }
        self.keep::<T>(part)?;
        take_numbered(taker, &self.line, &mut self.number)?;
        self.line.clear();
        Ok(())
    }

    /// Takes the lines that end in a piece of the input, and keeps what comes after the last of them.
    fn take_piece<T: TakeLine>(
        &mut self,
        piece: &[u8],
        taker: &mut T,
    ) -> Result<(), RefusedLine<T::Refusal>>
        requires { T.can_take taker.old }
        ensures taken { (came : List ℕ) (first : T)
            → IsMidway T.takes came self.old.line.items self.old.number first taker.old
            → ReachesOrStops T.takes (came ++ piece.now) self.new.line.items self.new.number
            first taker.new result }
        ensures ready { OnOk result (T.can_take taker.new) }
    {
        let mut rest = piece;
        while let Some(end) = memchr(b'\n', rest) {
            self.end_line(&rest[..end], taker)?;
            rest = &rest[end + 1..];
        }
        self.keep::<T>(rest)
    }
}

/// Takes the lines of an input in their order, until the input ends, a read fails, or a line is refused. A line is
/// taken before any byte past the piece that holds its end is asked for.
///
/// A line of more than 1,024 bytes is refused as soon as 1,025 bytes of it have come. If a read fails, the lines that
/// ended before are taken, and what came of the next is dropped. The caller keeps `failures()` below `u64::MAX`.
pub(crate) fn take_lines<R: Read, T: TakeLine>(
    input: &mut Counting<R>,
    taker: &mut T,
) -> Result<(), Stop<T::Refusal>>
    requires readable { input.old.failures < u64.MAX }
    requires ready { T.can_take taker.old }
    ensures runs { OfInput R.remaining input.old input.new
        (λ input. RunsOver T.takes input taker.old taker.new result) }
    ensures failures { input.new.failures ≡ input.old.failures + stop_failures result }
{
    let mut unfinished = Unfinished {
        line: ArrayVec::new(),
        number: 1,
    };
    let mut piece = [0; PIECE];
    'reads: loop {
        match input.read(&mut piece) {
            Ok(0) => return Ok(take_numbered(taker, &unfinished.line, &mut unfinished.number)?),
            Ok(count) => unfinished.take_piece(&piece[..count], taker)?,
            Err(_) => return Err(Stop::ReadFailed),
        }
    }
}

/// Takes the lines of an input that is in memory, in their order, until it ends or a line is refused, as `take_lines`
/// does. No read can fail.
pub(crate) fn take_lines_of<T: TakeLine>(
    bytes: &[u8],
    taker: &mut T,
) -> Result<(), Stop<T::Refusal>>
    requires { T.can_take taker.old }
    ensures { RunsOver T.takes (whole bytes.now) taker.old taker.new result }
{
    let mut last = Unfinished {
        line: ArrayVec::new(),
        number: 1,
    };
    last.take_piece(bytes, taker)?;
    Ok(take_numbered(taker, &last.line, &mut last.number)?)
}
