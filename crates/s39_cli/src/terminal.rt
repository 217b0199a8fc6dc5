//! A reader at a terminal: what is typed or pasted after a refusal is dropped, so that no shell gets it.
ghost use Rattle.std.specs.Prelude.{◌≡◌, ◌≢◌, ◌⊎◌, ◌<◌, IfErr, IfOk, Ok, length};
ghost use Rattle.std.specs.Io.{ReadsAtMost};
ghost use Rattle.std.specs.Io.KnownBytes.{ReadConsumes};
ghost use Rattle.std.specs.IoError.{error_kind};
ghost use Rattle.s39_cli.specs.Ending.{OnEnd};
ghost use Rattle.s39_cli.specs.Said.{Says, rest_line};
ghost use Rattle.s39_cli.specs.Terminal.{ConsumesMore, EndsAlike, HasRest};

use crate::person::Person;
use crate::runner::{Ended, REFUSED};
use std::io;
use std::io::{ErrorKind, Read, Write};

/// How far a reader was read.
#[derive(Clone, Copy)]
enum Progress {
    /// It was never read.
    Unread,
    /// It was read, but not to its end.
    Begun,
    /// It was read to its end, or a read failed.
    Ended,
}

/// A reader that knows whether it was read to its end, or failed. It gives the bytes that the reader below it gives.
#[derive(Drop)]
pub struct Watched<R> {
    input: R,
    progress: Progress,
}

impl<R: Read> Watched<R> {
    /// The reader, which nobody has read yet.
    pub fn new(input: R) -> Watched<R>
        ensures input { result.input ≡ input }
        ensures unread { result.progress ≡ Progress.Unread }
    {
        Watched {
            input,
            progress: Progress::Unread,
        }
    }

    /// Reads from the reader below, and notes how far that was read. A read that the system interrupted isn't the end.
    fn read_on(&mut self, buf: &mut [u8]) -> io::Result<usize>
        ensures bound { ReadsAtMost result buf.new }
        ensures bytes { ReadConsumes (R.remaining self.old.input) (R.remaining self.new.input)
            result buf.new }
        ensures begun { IfOk result (λ n. 0 < n → self.new.progress ≡ Progress.Begun) }
        ensures end { result ≡ Ok 0 → 0 < length buf.old → self.new.progress ≡ Progress.Ended }
        ensures failed { IfErr result (λ error. error_kind error ≢ ErrorKind.Interrupted
            → self.new.progress ≡ Progress.Ended) }
        ensures interrupted { IfErr result (λ error. error_kind error ≡ ErrorKind.Interrupted
            → self.new.progress ≡ Progress.Begun) }
    {
        let answer = self.input.read(buf);
        self.progress = match answer {
            Ok(0) if !buf.is_empty() => Progress::Ended,
            Err(ref error) if error.kind() != ErrorKind::Interrupted => Progress::Ended,
            _ => Progress::Begun,
        };
        answer
    }
}

impl<R: Read> Read for Watched<R> {
    ghost remaining = { λ watched. R.remaining watched.input };

    fn read(&mut self, buf: &mut [u8]) -> io::Result<usize> {
        self.read_on(buf)
    }
}

/// If a run that has begun to read its input ends with a status other than 0 before the input ends, or if a run ends with
/// status 1 before it reads any, this function tells the person that the rest is dropped. It then reads and drops what is still
/// typed or pasted, until the input ends. The status and the output stay as they are. After help, and after a refused command
/// line, it reads nothing.
pub fn with_rest_dropped<R: Read + Drop, W: Drop, E: Write>(
    ended: Ended<Watched<R>, W>,
    person: &mut Person<E>,
) -> Ended<Watched<R>, W>
    ensures alike { EndsAlike (λ watched. R.remaining watched.input) ended result }
    ensures done { OnEnd ended (λ status read_to written_to. status ≡ 0
        → (result ≡ ended) × (person.new ≡ person.old)) }
    // Of a reader that nobody has read, only a refusal with status 1 reads on.
    ensures unread { OnEnd ended (λ status read_to written_to. read_to.progress ≡ Progress.Unread
        → status ≢ 1 → (result ≡ ended) × (person.new ≡ person.old)) }
    // A reader that was read to its end, or that failed, isn't read on.
    ensures ended { OnEnd ended (λ status read_to written_to. read_to.progress ≡ Progress.Ended
        → (result ≡ ended) × (person.new ≡ person.old)) }
    // After any status except 0, nothing is left of an input that was begun.
    ensures dropped { OnEnd result (λ status read_to written_to. status ≢ 0
        → read_to.progress ≢ Progress.Begun) }
    // If memory ran out, nothing more is said.
    ensures no_memory { ended ≡ Ended.NoMemory → person.new ≡ person.old }
    // Nothing else is said than that the rest is dropped.
    ensures said { (person.new ≡ person.old) ⊎ Says E.contents person.old person.new rest_line }
    // If there is something to drop, it is said.
    ensures told { OnEnd ended (λ status read_to written_to. HasRest status read_to.progress
        → Says E.contents person.old person.new rest_line) }
    // After a refusal with status 1, nothing is left of any input.
    ensures refused { OnEnd result (λ status read_to written_to. status ≡ 1
        → read_to.progress ≡ Progress.Ended) }
{
    match ended {
        Ended::With {
            status,
            input,
            output,
        } => Ended::With {
            status,
            input: at_end(status, input, person),
            output,
        },
        Ended::NoMemory => Ended::NoMemory,
    }
}

/// The reader, read to its end if it was begun and hasn't come to it, or if a run was refused before it read.
fn at_end<R: Read, E: Write>(status: u8, input: Watched<R>, person: &mut Person<E>) -> Watched<R>
    ensures further { ConsumesMore (R.remaining input.input) (R.remaining result.input) }
    ensures done { status ≡ 0 → (result ≡ input) × (person.new ≡ person.old) }
    ensures unread { input.progress ≡ Progress.Unread → status ≢ 1
        → (result ≡ input) × (person.new ≡ person.old) }
    ensures ended { input.progress ≡ Progress.Ended → (result ≡ input) × (person.new ≡ person.old) }
    ensures dropped { status ≢ 0 → result.progress ≢ Progress.Begun }
    ensures said { (person.new ≡ person.old) ⊎ Says E.contents person.old person.new rest_line }
    ensures told { HasRest status input.progress → Says E.contents person.old person.new rest_line }
    ensures refused { status ≡ 1 → result.progress ≡ Progress.Ended }
{
    let waits = match input.progress {
        Progress::Unread => status == REFUSED,
        Progress::Begun => status != 0,
        Progress::Ended => false,
    };
    if !waits {
        return input;
    }
    let mut input = input;
    person.say(b"shamir: the rest of the input is dropped: end it with Ctrl-D\n");
    drop_rest(&mut input);
    input
}

/// Reads and drops all until the end, or until a read fails. After 2^64 - 1 reads it takes the input for ended.
fn drop_rest<R: Read>(input: &mut Watched<R>)
    ensures further { ConsumesMore (R.remaining input.old.input) (R.remaining input.new.input) }
    ensures dropped { input.new.progress ≡ Progress.Ended }
{
    let mut dropped = [0; 1024];
    for _ in 0..u64::MAX {
        match input.read_on(&mut dropped) {
            Ok(0) => return,
            Err(error) if error.kind() != ErrorKind::Interrupted => return,
            _ => {}
        }
    }
    input.progress = Progress::Ended;
}
