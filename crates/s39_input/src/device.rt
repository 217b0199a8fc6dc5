//! Readers and writers whose failures are counted.
ghost use Rattle.std.specs.Prelude.{◌≡◌, ◌+◌, ◌<◌, ◌≤◌, min, length, IfOk, IsErr};
ghost use Rattle.std.specs.Io.{ReadsAtMost, WritesAtMost};
ghost use Rattle.std.specs.Io.KnownBytes.{ReadConsumes, WriteAppends};
ghost use Rattle.s39_input.specs.Device.{failure_of};

use std::io;
use std::io::{ErrorKind, Read, Write};
use std::marker::Model;

/// A reader or a writer, with the number of its failed calls. No failed call is tried again.
///
/// A contract sees it as the device, the failures and the reads so far.
///
/// ```rust
/// let mut input = Counting::new(b"shamir".as_slice());
/// let mut piece = [0; 4];
/// assert_eq!(rt; input.read(&mut piece)?, 4);
/// assert_eq!(rt; (piece, input.failures()), (*b"sham", 0));
/// ```
#[derive(Drop)]
pub struct Counting<D> {
    device: D,
    failures: u64,
    reads: u64,
}

impl<D> Model for Counting<D> {
    ghost use Rattle.s39_input.specs.Device.{Counted, counted_code};

    ghost Value = { Counted D };

    ghost coded = { counted_code D.code };

    ghost view = { λ c. record { device = c.device; failures = c.failures; reads = c.reads } };
}

impl<D> Counting<D> {
    /// Wraps a device. No call has failed yet.
    pub fn new(device: D) -> Counting<D>
        ensures device { result.device ≡ device }
        ensures failures { result.failures ≡ 0 }
        ensures reads { result.reads ≡ 0 }
    {
        Counting {
            device,
            failures: 0,
            reads: 0,
        }
    }

    /// Returns the device.
    pub fn into_inner(self) -> D
        ensures { result ≡ self.device }
    {
        let Counting {
            device,
            failures: _,
            reads: _,
        } = self;
        device
    }

    /// Returns how many calls have failed.
    pub fn failures(&self) -> u64
        ensures { result ≡ self.now.failures }
    {
        self.failures
    }
}

impl<R: Read> Counting<R> {
    /// Reads into `buf` by one call of the device, and returns how many bytes came. It returns 0 only at the end of the
    /// input, or if `buf` is empty.
    ///
    /// It fails if the device does. After 2^64 - 1 reads it fails and doesn't ask the device.
    /// The caller keeps `failures()` below `u64::MAX`.
    pub fn read(&mut self, buf: &mut [u8]) -> io::Result<usize>
        requires { self.old.failures < u64.MAX }
        ensures bound { ReadsAtMost result buf.new }
        ensures bytes { ReadConsumes (R.remaining self.old.device) (R.remaining self.new.device)
            result buf.new }
        ensures failures { self.new.failures ≡ self.old.failures + failure_of result }
        ensures reads { self.new.reads ≡ min (self.old.reads + 1) u64.MAX }
        ensures worn_out { u64.MAX ≤ self.old.reads
            → IsErr result × (self.new.device ≡ self.old.device) }
    {
        if self.reads == u64::MAX {
            self.failures += 1;
            return Err(io::Error::from(ErrorKind::Other));
        }
        self.reads += 1;
        let answer = self.device.read(buf);
        if answer.is_err() {
            self.failures += 1;
        }
        answer
    }
}

impl<W: Write> Counting<W> {
    /// Writes a beginning of `piece` by one call of the device, and returns how many bytes the device took: at least
    /// one, unless `piece` is empty.
    ///
    /// It fails if the device does, or if the device takes no byte of a piece that isn't empty.
    /// The caller keeps `failures()` below `u64::MAX`.
    pub fn write(&mut self, piece: &[u8]) -> io::Result<usize>
        requires { self.old.failures < u64.MAX }
        ensures bound { WritesAtMost result piece.now }
        ensures bytes { WriteAppends (W.contents self.old.device) (W.contents self.new.device)
            result piece.now }
        ensures takes { IfOk result (λ n. 0 < length piece.now → 0 < n) }
        ensures failures { self.new.failures ≡ self.old.failures + failure_of result }
        ensures reads { self.new.reads ≡ self.old.reads }
    {
        let answer = match self.device.write(piece) {
            Ok(0) if !piece.is_empty() => Err(io::Error::from(ErrorKind::WriteZero)),
            answer => answer,
        };
        if answer.is_err() {
            self.failures += 1;
        }
        answer
    }
}
