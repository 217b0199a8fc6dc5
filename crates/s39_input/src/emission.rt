//! Texts of several lines. Each is written to a device, or put into a slice, a line at a time.
ghost use Rattle.std.specs.Prelude.{◌≡◌, ◌<◌, ◌≤◌, ◌++◌, ℕ, List, length, drop};
ghost use Rattle.std.specs.List.{concat};
ghost use Rattle.s39_input.specs.Emission.{AreLines};
ghost use Rattle.s39_input.specs.Output.{WritesText};
ghost use Rattle.s39_input.specs.Slices.{PutsText};

use crate::device::Counting;
use crate::output::{Line, WriteFailed, write_text};
use crate::slices::{TooShort, put};
use std::io::Write;

/// Writes so many lines, of which `line` gives each, up to the first write that fails. `line` takes each number below
/// `count`, and the caller keeps `failures()` below `u64::MAX`.
pub fn write_lines<W: Write, F: Fn(u16) -> Line>(
    output: &mut Counting<W>,
    count: u16,
    line: &F,
) -> Result<(), WriteFailed>
    requires callable { (index : ℕ) → index < count → F.pre line.now index }
    requires writable { output.old.failures < u64.MAX }
    ensures { (texts : List (List ℕ)) → AreLines (F.post line.now) count texts
        → WritesText W.contents output.old (concat texts) result output.new }
{
    for index in 0..count {
        write_text(output, line(index).as_slice())?;
    }
    Ok(())
}

/// Puts so many lines, of which `line` gives each, at the front of a slice, if they fit. It returns how many bytes they
/// have. `line` takes each number below `count`, and gives the same bytes each time that it's asked for a line.
pub fn put_lines<F: Fn(u16) -> Line>(
    text: &mut [u8],
    count: u16,
    line: &F,
) -> Result<usize, TooShort>
    requires callable { (index : ℕ) → index < count → F.pre line.now index }
    requires some { (texts : List (List ℕ)) × AreLines (F.post line.now) count texts }
    ensures { (texts : List (List ℕ)) → AreLines (F.post line.now) count texts
        → PutsText (concat texts) text.old text.new result }
{
    let needed = length_of_lines(count, line);
    if text.len() < needed {
        return Err(TooShort { needed });
    }
    copy_lines(text, count, line);
    Ok(needed)
}

/// How many bytes these lines have.
fn length_of_lines<F: Fn(u16) -> Line>(count: u16, line: &F) -> usize
    requires { (index : ℕ) → index < count → F.pre line.now index }
    ensures { (texts : List (List ℕ)) → AreLines (F.post line.now) count texts
        → result ≡ length (concat texts) }
{
    let mut needed = 0;
    for index in 0..count {
        needed += line(index).len();
    }
    needed
}

/// Puts these lines at the front of a slice, in which they fit.
fn copy_lines<F: Fn(u16) -> Line>(text: &mut [u8], count: u16, line: &F)
    requires callable { (index : ℕ) → index < count → F.pre line.now index }
    requires room { (texts : List (List ℕ)) × AreLines (F.post line.now) count texts
        × (length (concat texts) ≤ length text.old) }
    ensures { (texts : List (List ℕ)) → AreLines (F.post line.now) count texts
        → text.new ≡ concat texts ++ drop (length (concat texts)) text.old }
{
    let mut written = 0;
    for index in 0..count {
        let line = line(index);
        put(text, written, line.as_slice());
        written += line.len();
    }
}
