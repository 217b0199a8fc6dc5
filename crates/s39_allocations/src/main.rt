//! Runs worked examples over arrays, and says how each ended. Its standard input has a letter for each: `s`, `r`, `c`, `d`,
//! `t` (status), `i` (reissue), `m` (repair) and `n` (resplit) for the commands, `p` for a refused plan and `w` for refused words, each
//! by the program, and `S`, `R`, `C`, `D`, `T`, `I`, `M` and `N` for the runs below it.
//!
//! It takes no memory itself, so that `make faults` can refuse each allocation of an example in turn. The example then
//! ends as it does otherwise, or it runs out of memory. In that case it ends with status 4, which this program returns, and
//! with the line that says so alone. Nothing is read then, and nothing is written.
#![tactic(auto)]

mod arrays;
mod examples;

use crate::arrays::{OneFile, Sheet, Source};
use crate::examples::{Example, RANDOM, example_of, run_of};
use s39_cli::{Person, Terminals, program};
use std::alloc::Global;
use std::io;
use std::io::Read;
use std::process::ExitCode;

/// No device is a terminal.
const NO_TERMINAL: Terminals = Terminals {
    input: false,
    output: false,
    errors: false,
};

/// How an example ended.
#[derive(Clone, Copy, Debug, PartialEq, Eq)]
enum Ending {
    /// As it does if no allocation is refused.
    Own,
    /// Out of memory, with nothing read and nothing written.
    NoMemory,
    /// In another way.
    Other,
}

/// Runs the program on an example.
fn ending_of(alloc: Global, example: &Example) -> Ending {
    let mut input = Source::new(example.input);
    let mut output = Sheet::new();
    let mut errors = Sheet::new();
    let status = program(
        &OneFile { bytes: RANDOM },
        alloc,
        example.words,
        &mut input,
        &mut output,
        &mut Person::new(&mut errors, NO_TERMINAL),
    )
    .status();
    let has_no_memory = errors.as_slice() == b"shamir: out of memory\n".as_slice()
        && output.as_slice().is_empty()
        && input.reads() == 0;
    if status == 4 {
        return if has_no_memory {
            Ending::NoMemory
        } else {
            Ending::Other
        };
    }
    let is_own = status == example.status
        && output.as_slice() == example.output
        && errors.as_slice() == example.errors;
    if is_own { Ending::Own } else { Ending::Other }
}

/// Runs what stands below the program, which takes no memory.
fn ending_of_run(letter: u8) -> Ending {
    let Some(example) = example_of(letter.to_ascii_lowercase()) else {
        return Ending::Other;
    };
    let mut output = Sheet::new();
    let is_done = run_of(letter, Source::new(example.input), &mut output);
    if is_done && output.as_slice() == example.output {
        Ending::Own
    } else {
        Ending::Other
    }
}

/// Runs the examples of these letters. Returns whether one of them ran out of memory.
fn run_all(rt: &(impl Print + AllocGlobal), letters: &[u8]) -> io::Result<bool> {
    let mut has_no_memory = false;
    for letter in letters.iter().filter(|letter| letter.is_ascii_alphabetic()) {
        let ending = match example_of(*letter) {
            Some(example) => ending_of(rt.alloc(), &example),
            None => ending_of_run(*letter),
        };
        match ending {
            Ending::Own => println!(rt; "{}: its own answer", char::from(*letter))?,
            Ending::NoMemory => has_no_memory = true,
            Ending::Other => println!(rt; "{}: another answer", char::from(*letter))?,
        }
    }
    Ok(has_no_memory)
}

fn status(rt: &HostRuntime) -> io::Result<u8> {
    let mut letters = [0; 16];
    let count = rt.stdin().read(&mut letters)?;
    Ok(if run_all(rt, &letters[..count])? {
        4
    } else {
        0
    })
}

fn main(rt: HostRuntime) -> ExitCode {
    ExitCode::from(status(&rt).unwrap_or(1))
}
