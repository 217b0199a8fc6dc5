//! Slices of the caller, and why nothing was put into one.
ghost use Rattle.std.specs.Prelude.{◌≡◌, ◌+◌, ◌≤◌, ◌++◌, length, take, drop};

use crate::fault::Fault;

/// Lines that were put into a slice.
#[derive(Clone, Copy, Debug, PartialEq, Eq)]
pub struct WrittenLines {
    /// The length of their text in bytes.
    pub written: usize,
    /// How many lines they are.
    pub lines: usize,
}

/// A slice is too short for what would be put into it.
#[derive(Clone, Copy, Debug)]
pub struct TooShort {
    /// How many bytes are needed.
    pub needed: usize,
}

/// Why nothing was put into a slice.
#[derive(Clone, Copy, Debug)]
pub enum NoOutput {
    /// The request was refused.
    Refused(Fault),
    /// The slice is too short for the text.
    TooShort(TooShort),
}

impl From<Fault> for NoOutput {
    ghost use Rattle.s39_input.specs.declared.slices.NoOutput.TheVariants.{Refused};

    ghost from_gives = { λ fault cause. cause ≡ Refused fault };

    fn from(fault: Fault) -> NoOutput {
        NoOutput::Refused(fault)
    }
}

impl From<TooShort> for NoOutput {
    ghost use Rattle.s39_input.specs.declared.slices.NoOutput.TheVariants.{TooShort as IsTooShort};

    ghost from_gives = { λ short cause. cause ≡ IsTooShort short };

    fn from(short: TooShort) -> NoOutput {
        NoOutput::TooShort(short)
    }
}

/// Puts bytes into a slice at the offset `at`, and leaves the bytes before and after them unchanged. The caller makes
/// sure that they fit.
///
/// ```rust
/// let mut slice = *b"recover";
/// put(&mut slice, 2, b"..");
/// assert_eq!(rt; slice, *b"re..ver");
/// ```
pub fn put(slice: &mut [u8], at: usize, bytes: &[u8])
    requires { at + length bytes.now ≤ length slice.old }
    ensures { slice.new ≡ take at slice.old ++ bytes.now ++ drop (at + length bytes.now) slice.old }
{
    slice[at..at + bytes.len()].copy_from_slice(bytes);
}
