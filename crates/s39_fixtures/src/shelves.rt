//! Files to read values from.
ghost use Rattle.std.specs.Prelude.{◌≡◌, bytes_eq, find};

use crate::devices::FailingAtFirst;
use s39_cli::Shelf;
use std::alloc::Global;
use std::io;
use std::io::{Empty, ErrorKind};

/// A shelf with no file on it.
#[derive(Clone, Copy, Drop)]
pub struct NoFiles;

impl Shelf for NoFiles {
    type File = Empty;

    fn open(&self, _name: &str) -> io::Result<Empty> {
        Err(io::Error::from(ErrorKind::NotFound))
    }
}

/// A shelf of files that are held in memory, each by its name.
#[derive(Clone, Copy, Drop)]
pub struct Held<'a> {
    pub files: &'a [(&'a str, &'a [u8])],
}

/// The first file of this name.
fn file_of<'a>(files: &'a [(&'a str, &'a [u8])], name: &str) -> Option<(&'a str, &'a [u8])>
    ensures { result ≡ find (λ file. bytes_eq file.0.now name.now) files.entry.now }
{
    files.iter().copied().find(|file| file.0 == name)
}

impl<'a> Shelf for Held<'a> {
    ghost use Rattle.std.specs.Prelude.{bytes_eq, find, option_map};

    type File = &'a [u8];

    ghost told = { λ shelf name. option_map (λ file. file.1.now) (find (λ file. bytes_eq file.0.now name) shelf.files.now) };

    fn open(&self, name: &str) -> io::Result<&'a [u8]> {
        match file_of(self.files, name) {
            Some((_, bytes)) => Ok(bytes),
            None => Err(io::Error::from(ErrorKind::NotFound)),
        }
    }
}

/// A shelf on which every name is that of the same file, whose first reads, as many as `failures`, fail for an error of this
/// kind.
#[derive(Drop)]
pub struct Halted<'a> {
    pub alloc: Global,
    pub kind: ErrorKind,
    pub failures: usize,
    pub bytes: &'a [u8],
}

impl<'a> Shelf for Halted<'a> {
    type File = FailingAtFirst<'a>;

    fn open(&self, _name: &str) -> io::Result<FailingAtFirst<'a>> {
        Ok(FailingAtFirst::new(self.alloc, self.kind, self.failures, self.bytes))
    }
}
