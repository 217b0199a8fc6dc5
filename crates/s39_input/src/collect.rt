//! The set of the shares of an input, with a passphrase.
ghost use Rattle.std.specs.Prelude.{◌≡◌, ◌+◌, ◌<◌, Err, IfOk};
ghost use Rattle.s39_kdf.specs.declared.limits.BadPassphrase.{BadPassphrase};
ghost use Rattle.s39_set.specs.ShareSet.{IsShareSet};
ghost use Rattle.s39_input.specs.Accepted.{IsCheckedSet, IsReadAs};
ghost use Rattle.s39_input.specs.Fault.{fault_of, read_failures, stop_failures, write_failures};
ghost use Rattle.s39_input.specs.Input.{whole};
ghost use Rattle.s39_input.specs.Runs.{OfInput};

use crate::device::Counting;
use crate::fault::{Fault, LineRefusal, Refusal, Stop};
use crate::lines::{TakeLine, share_in, take_lines, take_lines_of};
use s39_kdf::check_passphrase;
use s39_set::ShareSet;
use std::io::Read;

/// A set takes a line by adding the share that it holds.
impl TakeLine for ShareSet {
    ghost use Rattle.std.proofs.Common.{ap};
    ghost use Rattle.s39_lists.specs.Each.{and_then};
    ghost use Rattle.s39_words.specs.Reading.{reading};
    ghost use Rattle.s39_input.specs.Accepted.{with_held};
    ghost use Rattle.s39_input.specs.Theory.LongLines.{long_is_refused};
    ghost use Rattle.s39_input.specs.Collecting.{CollectsLine};
    ghost use Rattle.s39_input.specs.declared.fault.LineRefusal.TheVariants.{TooLong, Word};

    type Refusal = LineRefusal;

    ghost can_take = { λ set. Unit {0} };

    ghost takes = { CollectsLine };

    ghost length_refusal = { TooLong };

    fn take_line(&mut self, line: &[u8]) -> Result<(), LineRefusal> {
        let Some(share) = share_in(line)? else {
            return Ok(());
        };
        match self.add(share) {
            Ok(_) => Ok(()),
            Err(error) => Err(LineRefusal::Set(error)),
        }
    }

    fn too_long() -> LineRefusal {
        LineRefusal::TooLong
    }

    ghost refuses_long = { λ set line long. ap (and_then (with_held set))
        (long_is_refused Word line (reading line) long) };
}

/// The set of the shares of an input, each once, if the passphrase is printable. The first error that applies is
/// returned:
///
/// - `Passphrase` if a byte of the passphrase isn't printable ASCII, before anything is read;
/// - what `read_set` refuses.
///
/// The caller keeps `failures()` below `u64::MAX`.
pub fn checked_set<R: Read>(passphrase: &[u8], input: &mut Counting<R>) -> Result<ShareSet, Fault>
    requires { input.old.failures < u64.MAX }
    ensures checked { OfInput R.remaining input.old input.new
        (λ input. IsCheckedSet passphrase.now input result) }
    ensures is_set { IfOk result IsShareSet }
    ensures read_failures { input.new.failures ≡ input.old.failures + read_failures result }
    ensures write_failures { write_failures result ≡ 0 }
    ensures unread { (bad : BadPassphrase)
        → result ≡ Err (fault_of (Refusal.Passphrase bad)) → input.new ≡ input.old }
{
    check_passphrase(passphrase)?;
    let mut set = ShareSet::new();
    take_lines(input, &mut set)?;
    Ok(set)
}

/// The set of the shares of lines in memory, as `checked_set` gives it of an input that ends after them.
pub fn checked_set_in(passphrase: &[u8], lines: &[u8]) -> Result<ShareSet, Fault>
    ensures checked { IsCheckedSet passphrase.now (whole lines.now) result }
    ensures is_set { IfOk result IsShareSet }
{
    check_passphrase(passphrase)?;
    Ok(set_in(lines)?)
}

/// The set of the shares of an input, each once. Blank lines and comments are skipped. A comment starts with `#`, after
/// any spaces, tabs and carriage returns. The first error that applies is returned:
///
/// - the first refused line, with its number: a word error, `TooLong` if it has more than 1,024 bytes, or `Set` if its
///   share can't join those of the lines before it;
/// - `Device(Read)` if a read fails; an unfinished line is then dropped, unless it is too long already.
///
/// The caller keeps `failures()` below `u64::MAX`.
pub fn read_set<R: Read>(input: &mut Counting<R>) -> Result<ShareSet, Stop<LineRefusal>>
    requires { input.old.failures < u64.MAX }
    ensures read { OfInput R.remaining input.old input.new (λ input. IsReadAs input result) }
    ensures is_set { IfOk result IsShareSet }
    ensures failures { input.new.failures ≡ input.old.failures + stop_failures result }
{
    let mut shares = ShareSet::new();
    take_lines(input, &mut shares)?;
    Ok(shares)
}

/// The set of the shares of lines in memory, each once, or the first line that is refused.
pub fn set_in(bytes: &[u8]) -> Result<ShareSet, Stop<LineRefusal>>
    ensures read { IsReadAs (whole bytes.now) result }
    ensures is_set { IfOk result IsShareSet }
{
    let mut shares = ShareSet::new();
    take_lines_of(bytes, &mut shares)?;
    Ok(shares)
}
