//! Runs that tell a person something. All have devices of the same types, so the program is compiled for them once.

use s39_cli::{Person, Terminals, program};
use s39_fixtures::devices::{FailingAtFirst, Full};
use s39_fixtures::shelves::Held;
use std::alloc::Global;
use std::io;
use std::io::{ErrorKind, Write};

/// Only messages go to a terminal.
pub const TOLD: Terminals = Terminals {
    input: false,
    output: false,
    errors: true,
};

/// What a person is told on.
#[derive(Drop)]
pub enum Screen<'a> {
    /// It takes what is said, perhaps after some calls that fail.
    Taking(FailingAtFirst<'a>),
    /// It takes nothing.
    Full,
}

impl Screen<'_> {
    /// One that takes what is said after so many calls that fail.
    pub fn after(failures: usize, alloc: Global) -> Self {
        Screen::Taking(FailingAtFirst::new(alloc, ErrorKind::Other, failures, b""))
    }

    /// One that takes all.
    pub fn new(alloc: Global) -> Self {
        Screen::after(0, alloc)
    }

    /// What was said.
    pub fn text(&self) -> &[u8] {
        match self {
            Screen::Taking(device) => device.written.as_slice(),
            Screen::Full => b"",
        }
    }

    /// How many times something was said, or failed.
    pub fn calls(&self) -> usize {
        match self {
            Screen::Taking(device) => device.calls,
            Screen::Full => 0,
        }
    }
}

impl Write for Screen<'_> {
    fn write(&mut self, buf: &[u8]) -> io::Result<usize> {
        match self {
            Screen::Taking(device) => device.write(buf),
            Screen::Full => Full.write(buf),
        }
    }

    fn flush(&mut self) -> io::Result<()> {
        Ok(())
    }
}

/// Runs the words at these terminals over a file `f` and two lines of `/dev/tty`, and returns the status.
pub fn run(
    alloc: Global,
    (words, input, terminals): (&[&str], &str, Terminals),
    output: &mut Vec<u8>,
    screen: &mut Screen<'_>,
) -> u8 {
    let shelf = Held {
        files: &[("f", b"TREZOR\n"), ("/dev/tty", b"TREZOR\nmore\n")],
    };
    program(
        &shelf,
        alloc,
        words,
        input.as_bytes(),
        output,
        &mut Person::new(screen, terminals),
    )
    .status()
}
