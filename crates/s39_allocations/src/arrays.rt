//! A reader and a writer over arrays, which take no memory.

use arrayvec::ArrayVec;
use s39_cli::Shelf;
use std::io;
use std::io::{ErrorKind, Read, Write};

/// A shelf on which every name is that of the same file, which has these bytes.
#[derive(Clone, Copy, Drop)]
pub struct OneFile<'a> {
    pub bytes: &'a [u8],
}

impl<'a> Shelf for OneFile<'a> {
    type File = &'a [u8];

    fn open(&self, _name: &str) -> io::Result<&'a [u8]> {
        Ok(self.bytes)
    }
}

/// A reader of bytes that counts its calls.
#[derive(Drop)]
pub struct Source<'a> {
    rest: &'a [u8],
    reads: usize,
}

impl<'a> Source<'a> {
    /// A reader of these bytes.
    pub fn new(bytes: &'a [u8]) -> Source<'a> {
        Source {
            rest: bytes,
            reads: 0,
        }
    }

    /// How often it was read.
    pub fn reads(&self) -> usize {
        self.reads
    }
}

impl Read for Source<'_> {
    fn read(&mut self, buf: &mut [u8]) -> io::Result<usize> {
        self.reads = self.reads.saturating_add(1);
        let count = self.rest.len().min(buf.len());
        let (now, rest) = self.rest.split_at(count);
        buf[..count].copy_from_slice(now);
        self.rest = rest;
        Ok(count)
    }
}

/// A writer to an array, which fails where that is full.
#[derive(Drop)]
pub struct Sheet {
    bytes: ArrayVec<u8, 1024>,
}

impl Sheet {
    /// An empty one.
    pub fn new() -> Sheet {
        Sheet {
            bytes: ArrayVec::new(),
        }
    }

    /// What was written.
    pub fn as_slice(&self) -> &[u8] {
        self.bytes.as_slice()
    }
}

impl Write for Sheet {
    fn write(&mut self, buf: &[u8]) -> io::Result<usize> {
        match self.bytes.try_extend_from_slice(buf) {
            Ok(()) => Ok(buf.len()),
            Err(_) => Err(io::Error::from(ErrorKind::WriteZero)),
        }
    }

    fn flush(&mut self) -> io::Result<()> {
        Ok(())
    }
}
