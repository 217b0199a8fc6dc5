//! A writer that tries a write again if the system interrupted it.
ghost use Rattle.std.specs.Prelude.{◌≡◌, false};

use std::io;
use std::io::{ErrorKind, Write};

/// A writer whose interrupted writes are tried again. It holds the bytes that the writer below it holds.
#[derive(Drop)]
pub(crate) struct Patient<W> {
    output: W,
    is_written: bool,
}

impl<W: Write> Patient<W> {
    /// A writer to which nothing has been written yet.
    pub(crate) fn new(output: W) -> Patient<W>
        ensures output { result.output ≡ output }
        ensures unwritten { result.is_written ≡ false }
    {
        Patient {
            output,
            is_written: false,
        }
    }

    /// Whether something was written to it, or a write failed.
    pub(crate) fn is_written(&self) -> bool
        ensures { result ≡ self.now.is_written }
    {
        self.is_written
    }

    /// The writer.
    pub(crate) fn into_inner(self) -> W
        ensures { result ≡ self.output }
    {
        self.output
    }
}

impl<W: Write> Write for Patient<W> {
    ghost contents = { λ patient. W.contents patient.output };

    fn write(&mut self, buf: &[u8]) -> io::Result<usize> {
        self.is_written = true;
        for _ in 0..u64::MAX {
            match self.output.write(buf) {
                Err(error) if error.kind() == ErrorKind::Interrupted => {}
                answer => return answer,
            }
        }
        Err(io::Error::from(ErrorKind::Interrupted))
    }

    fn flush(&mut self) -> io::Result<()> {
        self.output.flush()
    }
}
