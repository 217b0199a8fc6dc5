//! Readers and writers that give or take few bytes at a time, fail, or are interrupted.

use std::alloc::Global;
use std::io;
use std::io::{ErrorKind, Read, Write};

/// A reader that gives a limited number of bytes at each call, and fails after a limited number of calls.
#[derive(Drop)]
pub struct Source<'a> {
    bytes: &'a [u8],
    piece: usize,
    good_calls: usize,
    pub calls: usize,
}

impl<'a> Source<'a> {
    pub fn new(bytes: &'a [u8], piece: usize, good_calls: usize) -> Source<'a> {
        Source {
            bytes,
            piece,
            good_calls,
            calls: 0,
        }
    }

    /// A reader that gives its bytes one at a time.
    pub fn slow(bytes: &'a [u8]) -> Source<'a> {
        Source::new(bytes, 1, usize::MAX)
    }

    /// A reader that gives its bytes one at a time, and fails after them.
    pub fn cut(bytes: &'a [u8]) -> Source<'a> {
        Source::new(bytes, 1, bytes.len())
    }
}

impl Read for Source<'_> {
    fn read(&mut self, buf: &mut [u8]) -> io::Result<usize> {
        self.calls = self.calls.saturating_add(1);
        if self.calls > self.good_calls {
            return Err(io::Error::from(ErrorKind::Other));
        }
        let count = self.piece.min(self.bytes.len()).min(buf.len());
        let (now, rest) = self.bytes.split_at(count);
        buf[..count].copy_from_slice(now);
        self.bytes = rest;
        Ok(count)
    }
}

/// A device whose first calls, as many as `failures`, fail for an error of this kind. After that, it takes what is written,
/// and gives these bytes.
#[derive(Drop)]
pub struct FailingAtFirst<'a> {
    kind: ErrorKind,
    failures: usize,
    unread: &'a [u8],
    pub written: Vec<u8>,
    pub calls: usize,
    pub flushes: usize,
}

impl<'a> FailingAtFirst<'a> {
    pub fn new(
        alloc: Global,
        kind: ErrorKind,
        failures: usize,
        unread: &'a [u8],
    ) -> FailingAtFirst<'a> {
        FailingAtFirst {
            kind,
            failures,
            unread,
            written: Vec::new(alloc),
            calls: 0,
            flushes: 0,
        }
    }

    /// Counts a call, which may be one of those that fail.
    fn called(&mut self) -> io::Result<()> {
        self.calls = self.calls.saturating_add(1);
        if self.calls <= self.failures {
            return Err(io::Error::from(self.kind));
        }
        Ok(())
    }
}

impl Read for FailingAtFirst<'_> {
    fn read(&mut self, buf: &mut [u8]) -> io::Result<usize> {
        self.called()?;
        let count = self.unread.len().min(buf.len());
        let (now, rest) = self.unread.split_at(count);
        buf[..count].copy_from_slice(now);
        self.unread = rest;
        Ok(count)
    }
}

impl Write for FailingAtFirst<'_> {
    fn write(&mut self, buf: &[u8]) -> io::Result<usize> {
        self.called()?;
        self.written.extend_from_slice(buf)?;
        Ok(buf.len())
    }

    fn flush(&mut self) -> io::Result<()> {
        self.flushes = self.flushes.saturating_add(1);
        Ok(())
    }
}

/// A reader that gives a limited number of bytes at each call, and for which the system interrupts each second call.
#[derive(Drop)]
pub struct Halting<'a> {
    bytes: &'a [u8],
    piece: usize,
    pub calls: usize,
}

impl<'a> Halting<'a> {
    pub fn new(bytes: &'a [u8], piece: usize) -> Halting<'a> {
        Halting {
            bytes,
            piece,
            calls: 0,
        }
    }
}

impl Read for Halting<'_> {
    fn read(&mut self, buf: &mut [u8]) -> io::Result<usize> {
        self.calls = self.calls.saturating_add(1);
        if self.calls % 2 == 0 {
            return Err(io::Error::from(ErrorKind::Interrupted));
        }
        let count = self.piece.min(self.bytes.len()).min(buf.len());
        let (now, rest) = self.bytes.split_at(count);
        buf[..count].copy_from_slice(now);
        self.bytes = rest;
        Ok(count)
    }
}

/// A reader for which the system interrupts a number of calls before each byte of the first line. It then gives the rest.
#[derive(Drop)]
pub struct SlowLine<'a> {
    bytes: &'a [u8],
    before_each: usize,
    left: usize,
    pub calls: usize,
}

impl<'a> SlowLine<'a> {
    pub fn new(bytes: &'a [u8], before_each: usize) -> SlowLine<'a> {
        SlowLine {
            bytes,
            before_each,
            left: before_each,
            calls: 0,
        }
    }
}

impl Read for SlowLine<'_> {
    fn read(&mut self, buf: &mut [u8]) -> io::Result<usize> {
        self.calls = self.calls.saturating_add(1);
        if self.left > 0 {
            self.left -= 1;
            return Err(io::Error::from(ErrorKind::Interrupted));
        }
        let piece = if self.before_each > 0 { 1 } else { buf.len() };
        let count = piece.min(self.bytes.len()).min(buf.len());
        let (now, rest) = self.bytes.split_at(count);
        buf[..count].copy_from_slice(now);
        if now.ends_with(b"\n") {
            self.before_each = 0;
        }
        self.left = self.before_each;
        self.bytes = rest;
        Ok(count)
    }
}

/// A writer that takes a limited number of bytes at each call, and fails once there is no room.
#[derive(Drop)]
pub struct Filling {
    pub bytes: Vec<u8>,
    piece: usize,
    room: usize,
    pub failed_calls: usize,
}

impl Filling {
    pub fn new(alloc: Global, piece: usize, room: usize) -> Filling {
        Filling {
            bytes: Vec::new(alloc),
            piece,
            room,
            failed_calls: 0,
        }
    }
}

impl Write for Filling {
    fn write(&mut self, buf: &[u8]) -> io::Result<usize> {
        let count = self.piece.min(self.room).min(buf.len());
        if count == 0 {
            self.failed_calls = self.failed_calls.saturating_add(1);
            return Err(io::Error::from(ErrorKind::Other));
        }
        self.bytes.extend_from_slice(&buf[..count])?;
        self.room -= count;
        Ok(count)
    }

    fn flush(&mut self) -> io::Result<()> {
        Ok(())
    }
}

/// A writer that counts its flushes, which may fail.
#[derive(Drop)]
pub struct Flushing {
    pub bytes: Vec<u8>,
    pub flushes: usize,
    pub fails: bool,
}

impl Flushing {
    pub fn new(alloc: Global, fails: bool) -> Flushing {
        Flushing {
            bytes: Vec::new(alloc),
            flushes: 0,
            fails,
        }
    }
}

impl Write for Flushing {
    fn write(&mut self, buf: &[u8]) -> io::Result<usize> {
        self.bytes.extend_from_slice(buf)?;
        Ok(buf.len())
    }

    fn flush(&mut self) -> io::Result<()> {
        self.flushes = self.flushes.saturating_add(1);
        if self.fails {
            return Err(io::Error::from(ErrorKind::Other));
        }
        Ok(())
    }
}

/// A writer for which the system interrupts a number of calls before each call that takes bytes.
#[derive(Drop)]
pub struct Interrupted {
    pub bytes: Vec<u8>,
    pub calls: usize,
    before_each: usize,
    left: usize,
}

impl Interrupted {
    pub fn new(alloc: Global, before_each: usize) -> Interrupted {
        Interrupted {
            bytes: Vec::new(alloc),
            calls: 0,
            before_each,
            left: before_each,
        }
    }
}

impl Write for Interrupted {
    fn write(&mut self, buf: &[u8]) -> io::Result<usize> {
        self.calls = self.calls.saturating_add(1);
        if self.left > 0 {
            self.left -= 1;
            return Err(io::Error::from(ErrorKind::Interrupted));
        }
        self.bytes.extend_from_slice(buf)?;
        self.left = self.before_each;
        Ok(buf.len())
    }

    fn flush(&mut self) -> io::Result<()> {
        Ok(())
    }
}

/// A writer that takes nothing.
#[derive(Drop)]
pub struct Full;

impl Write for Full {
    fn write(&mut self, _buf: &[u8]) -> io::Result<usize> {
        Ok(0)
    }

    fn flush(&mut self) -> io::Result<()> {
        Ok(())
    }
}
