//! A terminal: what is typed behind a fault is dropped, and random bytes aren't typed.

use crate::expect::{equal, equal_for};
use s39_cli::{Person, Terminals, Watched, program, with_rest_dropped};
use s39_fixtures::devices::{Full, Halting, Source};
use s39_fixtures::shelves::NoFiles;
use s39_fixtures::{
    ALL_TERMINALS, ONE_OF_ONE, RECOVER, SECRET, TWO_NEEDED_MEMBER_2, create, lines,
};
use std::alloc::Global;
use std::process::Abort;
use std::test::Fail;

const ALL: usize = usize::MAX;

/// Only the input comes from a terminal.
const TYPED: Terminals = Terminals {
    input: true,
    output: false,
    errors: false,
};

/// Said before mnemonics are typed.
const TYPING: &str = "shamir: type a mnemonic on each line, then press Ctrl-D on an empty line\n";

/// Runs the words at a terminal, whose input comes in pieces of `piece` bytes. The first `good_calls` reads don't fail.
/// Compares what is said first and then, the status, and the number of reads.
fn expect_reads(
    rt: &impl Abort,
    alloc: Global,
    words: &[&str],
    (input, piece, good_calls): (&str, usize, usize),
    (before, told, status, calls): (&str, &str, u8, usize),
) {
    let mut device = Source::new(input.as_bytes(), piece, good_calls);
    let mut said = Vec::new(alloc);
    let person = &mut Person::new(&mut said, TYPED);
    let ended = program(
        &NoFiles,
        alloc,
        words,
        Watched::new(&mut device),
        Vec::new(alloc),
        person,
    );
    let answered = with_rest_dropped(ended, person).status();
    equal_for(rt, words, (answered, device.calls), (status, calls));
    let said = said.as_slice();
    equal_for(
        rt,
        words,
        said.strip_prefix(before.as_bytes()),
        Some(told.as_bytes()),
    );
}

#[test]
fn drops_what_is_typed_behind_a_fault(rt: HostRuntime) -> Result<(), Fail> {
    let alloc = rt.alloc();
    let refused = lines(alloc, &["ducklin", ONE_OF_ONE, ONE_OF_ONE])?;
    let input = refused.as_str();
    let told = "shamir: line 1: 11 unknown word 1
shamir: the rest of the input is dropped: end it with Ctrl-D\n";
    let reads = input.len() + 1;
    expect_reads(
        &rt,
        alloc,
        &RECOVER,
        (input, 4096, ALL),
        (TYPING, told, 1, 2),
    );
    expect_reads(
        &rt,
        alloc,
        &RECOVER,
        (input, 1, ALL),
        (TYPING, told, 1, reads),
    );
    // More than a few pieces follow, one byte in each.
    let papers = ONE_OF_ONE.repeat(alloc, 500)?;
    let many = lines(alloc, &["ducklin", papers.as_str()])?;
    let long = many.as_str();
    let reads = long.len() + 1;
    expect_reads(
        &rt,
        alloc,
        &RECOVER,
        (long, 1, ALL),
        (TYPING, told, 1, reads),
    );
    // A read fails behind the fault.
    expect_reads(&rt, alloc, &RECOVER, (input, 8, 2), (TYPING, told, 1, 3));
    Ok(())
}

#[test]
fn drops_what_is_typed_behind_a_refused_text(rt: HostRuntime) -> Result<(), Fail> {
    let alloc = rt.alloc();
    let whole = lines(alloc, &[ONE_OF_ONE])?;
    let told = "shamir: 61 bad cursor
shamir: the rest of the input is dropped: end it with Ctrl-D\n";
    let drill = ["shamir", "drill", "--after", "x"];
    let input = (whole.as_str(), 4096, ALL);
    expect_reads(&rt, alloc, &drill, input, ("", told, 1, 2));
    Ok(())
}

#[test]
fn drops_what_is_typed_behind_a_failed_write(rt: HostRuntime) -> Result<(), Fail> {
    let alloc = rt.alloc();
    let two = lines(alloc, &[ONE_OF_ONE, ONE_OF_ONE])?;
    let mut device = Source::new(two.as_bytes(), ONE_OF_ONE.len() + 1, ALL);
    let mut said = Vec::new(alloc);
    let person = &mut Person::new(&mut said, ALL_TERMINALS);
    let ended = program(
        &NoFiles,
        alloc,
        &["shamir", "show"],
        Watched::new(&mut device),
        Full,
        person,
    );
    let status = with_rest_dropped(ended, person).status();
    equal(&rt, (status, device.calls), (3, 3));
    let told = "shamir: 73 write failed
shamir: the rest of the input is dropped: end it with Ctrl-D\n";
    equal(
        &rt,
        said.as_slice().strip_prefix(TYPING.as_bytes()),
        Some(told.as_bytes()),
    );
    Ok(())
}

#[test]
fn drops_what_is_typed_after_an_interruption(rt: HostRuntime) -> Result<(), Fail> {
    let alloc = rt.alloc();
    let refused = lines(alloc, &["ducklin", ONE_OF_ONE])?;
    let mut device = Halting::new(refused.as_bytes(), 8);
    let mut said = Vec::new(alloc);
    let person = &mut Person::new(&mut said, TYPED);
    let ended = program(
        &NoFiles,
        alloc,
        &RECOVER,
        Watched::new(&mut device),
        Vec::new(alloc),
        person,
    );
    let status = with_rest_dropped(ended, person).status();
    // Each piece takes two calls, the first of which is interrupted, except for the first piece. The last call gives no byte.
    let pieces = refused.len().div_ceil(8);
    equal(&rt, (status, device.calls), (1, 2 * pieces + 1));
    Ok(())
}

#[test]
fn reads_no_further_behind_the_end(rt: HostRuntime) -> Result<(), Fail> {
    let alloc = rt.alloc();
    let one = lines(alloc, &[TWO_NEEDED_MEMBER_2])?;
    let whole = lines(alloc, &[ONE_OF_ONE])?;
    let lack = "shamir: 30 incomplete: 0 of 1 groups\n";
    expect_reads(
        &rt,
        alloc,
        &RECOVER,
        (one.as_str(), 4096, ALL),
        (TYPING, lack, 1, 2),
    );
    expect_reads(
        &rt,
        alloc,
        &RECOVER,
        (whole.as_str(), 4096, ALL),
        (TYPING, "", 0, 2),
    );
    let failed = "shamir: 72 read failed\n";
    expect_reads(
        &rt,
        alloc,
        &RECOVER,
        (whole.as_str(), 1, 5),
        (TYPING, failed, 3, 6),
    );
    Ok(())
}

#[test]
fn takes_no_random_bytes_from_a_terminal(rt: HostRuntime) {
    let resplit = ["shamir", "resplit", "x", "--random-file=/dev/tty"];
    let told = "shamir: random bytes aren't typed: draw them, as with head -c N /dev/urandom\n";
    for words in [create("2of3", SECRET).as_slice(), &resplit] {
        let typed = ("my dog is red\n", 4096, ALL);
        expect_reads(&rt, rt.alloc(), words, typed, ("", told, 2, 0));
    }
}
