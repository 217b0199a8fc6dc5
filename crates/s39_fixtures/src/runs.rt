//! Runs of the program.

use crate::devices::Flushing;
use crate::shelves::{Held, NoFiles};
use s39_cli::{Person, Terminals};
use std::alloc::Global;
use std::io::{Read, Write};
use std::test::Fail;

pub const SHOW: [&str; 2] = ["shamir", "show"];

pub const REPAIR: [&str; 2] = ["shamir", "repair"];

pub const RECOVER: [&str; 4] = ["shamir", "recover", "--passphrase", "TREZOR"];

pub const DRILL: [&str; 4] = ["shamir", "drill", "--passphrase", "TREZOR"];

/// The message when a write fails; the exit status is 3.
pub const WRITE_FAILED_LINE: &str = "shamir: 73 write failed\n";

/// No device is a terminal.
pub const NO_TERMINAL: Terminals = Terminals {
    input: false,
    output: false,
    errors: false,
};

/// Each device is a terminal.
pub const ALL_TERMINALS: Terminals = Terminals {
    input: true,
    output: true,
    errors: true,
};

/// Runs the program without a terminal, and returns its exit status.
pub fn program<R: Read + Drop, W: Write + Drop, E: Write + Drop>(
    alloc: Global,
    words: &[&str],
    input: R,
    output: W,
    errors: E,
) -> u8 {
    s39_cli::program(
        &NoFiles,
        alloc,
        words,
        input,
        output,
        &mut Person::new(errors, NO_TERMINAL),
    )
    .status()
}

/// Runs the program at a terminal, and returns its exit status.
pub fn program_at_terminal<R: Read + Drop, W: Write + Drop, E: Write + Drop>(
    alloc: Global,
    words: &[&str],
    input: R,
    output: W,
    errors: E,
) -> u8 {
    s39_cli::program(
        &NoFiles,
        alloc,
        words,
        input,
        output,
        &mut Person::new(errors, ALL_TERMINALS),
    )
    .status()
}

/// What a run wrote, its message on standard error, and its exit status.
#[derive(Drop)]
pub struct Run {
    pub written: Vec<u8>,
    pub told: Vec<u8>,
    pub status: u8,
}

/// Runs the program with these words on an input.
pub fn run_on(alloc: Global, words: &[&str], input: &[u8]) -> Run {
    let mut written = Vec::new(alloc);
    let mut told = Vec::new(alloc);
    let status = program(alloc, words, input, &mut written, &mut told);
    Run {
        written,
        told,
        status,
    }
}

/// Runs the words on an input, over files that are held in memory.
pub fn run_over(files: &[(&str, &[u8])], alloc: Global, words: &[&str], input: &[u8]) -> Run {
    let mut written = Vec::new(alloc);
    let mut told = Vec::new(alloc);
    let status = s39_cli::program(
        &Held { files },
        alloc,
        words,
        input,
        &mut written,
        &mut Person::new(&mut told, NO_TERMINAL),
    )
    .status();
    Run {
        written,
        told,
        status,
    }
}

/// Runs the program with these words on lines, and compares its output, its message and its status with `wanted`.
///
/// # Errors
/// One of them differs. The text of the error has the words and what came instead.
pub fn expect_run(
    words: &[&str],
    input: &str,
    alloc: Global,
    wanted: (&str, &str, u8),
) -> Result<(), Fail> {
    expect_bytes(words, input.as_bytes(), alloc, wanted)
}

/// Does what `expect_run` does, on any bytes.
///
/// # Errors
/// The errors are those of `expect_run`.
pub fn expect_bytes(
    words: &[&str],
    input: &[u8],
    alloc: Global,
    wanted: (&str, &str, u8),
) -> Result<(), Fail> {
    expect_answer(words, run_on(alloc, words, input), wanted)
}

/// Likewise over files that are held in memory.
///
/// # Errors
/// As of `expect_run`.
pub fn expect_over(
    files: &[(&str, &[u8])],
    words: &[&str],
    input: &[u8],
    alloc: Global,
    wanted: (&str, &str, u8),
) -> Result<(), Fail> {
    expect_answer(words, run_over(files, alloc, words, input), wanted)
}

/// Compares what a run of the words wrote, said and answered.
fn expect_answer(words: &[&str], run: Run, wanted: (&str, &str, u8)) -> Result<(), Fail> {
    let (output, errors, status) = wanted;
    expect_text(words, "output", run.written.as_slice(), output)?;
    expect_text(words, "message", run.told.as_slice(), errors)?;
    expect_status(words, run.status, status)
}

/// Runs the program over any reader and writer, and compares its message and its status.
///
/// # Errors
/// The errors are those of `expect_run`.
pub fn expect_told<R: Read + Drop, W: Write + Drop>(
    words: &[&str],
    input: R,
    output: W,
    alloc: Global,
    wanted: (&str, u8),
) -> Result<(), Fail> {
    let (errors, status) = wanted;
    let mut told = Vec::new(alloc);
    let answer = program(alloc, words, input, output, &mut told);
    expect_text(words, "message", told.as_slice(), errors)?;
    expect_status(words, answer, status)
}

/// Runs the program over a writer whose flushes all fail or all succeed. Compares its output, its message, its status, and
/// how often the writer is flushed.
///
/// # Errors
/// The errors are those of `expect_run`.
pub fn expect_flushed(
    words: &[&str],
    input: &[u8],
    alloc: Global,
    fails: bool,
    wanted: (&str, &str, u8, usize),
) -> Result<(), Fail> {
    let (output, errors, status, flushes) = wanted;
    let mut device = Flushing::new(alloc, fails);
    expect_told(words, input, &mut device, alloc, (errors, status))?;
    expect_text(words, "output", device.bytes.as_slice(), output)?;
    if device.flushes == flushes {
        Ok(())
    } else {
        Err(Fail::new(format_args!(
            "flushes for {words:?}: {}, and not {flushes}",
            device.flushes
        )))
    }
}

fn expect_status(words: &[&str], status: u8, wanted: u8) -> Result<(), Fail> {
    if status == wanted {
        Ok(())
    } else {
        Err(Fail::new(format_args!("the status for {words:?}: {status}, and not {wanted}")))
    }
}

/// Compares what a run wrote to a device with a text.
fn expect_text(words: &[&str], what: &str, written: &[u8], wanted: &str) -> Result<(), Fail> {
    if written == wanted.as_bytes() {
        return Ok(());
    }
    let text = std::str::from_utf8(written).unwrap_or("no UTF-8");
    Err(Fail::new(format_args!("the {what} for {words:?}: {text}\nwanted: {wanted}")))
}
