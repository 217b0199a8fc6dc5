//! The program `shamir`: SLIP-0039 backups on the command line.
#![tactic(auto)]

use s39_clearing::clear_stack;
use s39_cli::{Person, SystemFiles, Terminals, Watched, no_words, program, with_rest_dropped};
use std::alloc::{AllocError, Global};
use std::io::{IsTerminal, Write};
use std::process::ExitCode;
use std::{env, io};

/// How many words of the stack are cleared: 384 KiB. The deepest command is `reissue`: the frames on its way add up
/// to 374 KiB, as objdump shows them. tools/leftovers finds what isn't cleared.
const REACHED: usize = 49_152;

fn texts<'a>(alloc: Global, arguments: &'a [String]) -> Result<Vec<&'a str>, AllocError> {
    arguments
        .iter()
        .map(|argument| argument.as_str())
        .collect(alloc)
}

/// The exit status, unless the system doesn't give the words.
#[inline(never)]
fn status<E: Write>(rt: &HostRuntime, person: &mut Person<E>) -> io::Result<u8> {
    let alloc = rt.alloc();
    let arguments: Vec<String> = env::args(rt)?.collect(alloc)?;
    let words = texts(alloc, &arguments)?;
    let files = SystemFiles::new(rt);
    let (input, output) = (rt.stdin(), rt.stdout());
    if !input.is_terminal() {
        return Ok(program(&files, alloc, &words, input, output, person).status());
    }
    let input = Watched::new(input);
    let ended = program(&files, alloc, &words, input, output, person);
    Ok(with_rest_dropped(ended, person).status())
}

fn main(rt: HostRuntime) -> ExitCode {
    // The system gives the stack here, before a secret is read. So the clearing at the end can't fail for lack of it.
    let _ = clear_stack::<REACHED>();
    let terminals = Terminals {
        input: rt.stdin().is_terminal(),
        output: rt.stdout().is_terminal(),
        errors: rt.stderr().is_terminal(),
    };
    let person = &mut Person::new(rt.stderr(), terminals);
    let ended = match status(&rt, person) {
        Ok(ended) => ended,
        Err(error) => no_words(&error, person),
    };
    let _ = clear_stack::<REACHED>();
    ExitCode::from(ended)
}
