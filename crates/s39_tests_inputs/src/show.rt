//! The worked examples of `show`.

use crate::expect::{equal, holds};
use s39_fixtures::devices::Source;
use s39_fixtures::{
    EXTENDABLE_ONE_OF_ONE, EXTENDABLE_ONE_OF_ONE_SHOWN, EXTENDABLE_TWO_WORDS_EXCHANGED,
    LONGEST_ONE_OF_ONE, LONGEST_ONE_OF_ONE_SHOWN, ONE_OF_ONE, ONE_OF_ONE_256_BITS,
    ONE_OF_ONE_256_BITS_SHOWN, ONE_OF_ONE_BAD_CHECKSUM, ONE_OF_ONE_BAD_PADDING, SHOW, SHOWN,
    TWO_NEEDED_MEMBER_0, TWO_NEEDED_MEMBER_2, expect_run, expect_told, run_on,
};
use s39_words::laws::read_back;
use s39_words::{WordError, parse, print};
use std::alloc::{AllocError, Global};
use std::test::Fail;

/// `ONE_OF_ONE` in capitals, and with other separators.
const SPACED: &str =
    "\tDUCKLING  ENLARGE ACADEMIC ACADEMIC AGENCY\t\tRESULT LENGTH SOLUTION FRIDGE KIDNEY COAL PIECE DEAL HUSBAND ERODE DUKE AJAR CRITICAL DECISION KEYBOARD \r";

/// A mnemonic with `zero` in place of the words at these places, counted from 0.
fn with_zeros(alloc: Global, mnemonic: &str, places: &[usize]) -> Result<String, AllocError> {
    let mut changed = String::new(alloc);
    for (place, word) in mnemonic.split_ascii_whitespace().enumerate() {
        let is_wrong = places.contains(&place);
        changed.push_str(if is_wrong { "zero" } else { word })?;
        changed.push_str(" ")?;
    }
    Ok(changed)
}

#[test]
fn refuses_three_wrong_words(rt: HostRuntime) -> Result<(), Fail> {
    for places in [&[4_usize][..], &[4, 19], &[4, 19, 32]] {
        let changed = with_zeros(rt.alloc(), ONE_OF_ONE_256_BITS, places)?;
        equal(
            &rt,
            parse(changed.as_bytes()).err(),
            Some(WordError::BadChecksum),
        );
    }
    let exchanged = parse(EXTENDABLE_TWO_WORDS_EXCHANGED.as_bytes());
    equal(&rt, exchanged.err(), Some(WordError::BadChecksum));
    Ok(())
}

#[test]
fn prints_the_text_that_it_read(rt: HostRuntime) -> Result<(), Fail> {
    for text in [
        ONE_OF_ONE,
        ONE_OF_ONE_256_BITS,
        EXTENDABLE_ONE_OF_ONE,
        TWO_NEEDED_MEMBER_2,
        TWO_NEEDED_MEMBER_0,
        LONGEST_ONE_OF_ONE,
    ] {
        let share = parse(text.as_bytes())?;
        equal(&rt, print(&share).as_slice(), text.as_bytes());
        equal(&rt, print(&read_back(&share)?).as_slice(), text.as_bytes());
    }
    equal(
        &rt,
        print(&parse(SPACED.as_bytes())?).as_slice(),
        ONE_OF_ONE.as_bytes(),
    );
    Ok(())
}

#[test]
fn shows_mnemonics(rt: HostRuntime) -> Result<(), Fail> {
    let alloc = rt.alloc();
    expect_run(&SHOW, ONE_OF_ONE, alloc, (SHOWN, "", 0))?;
    let spaced = format!(in alloc; "{SPACED}\n")?;
    expect_run(&SHOW, spaced.as_str(), alloc, (SHOWN, "", 0))?;
    let extendable = EXTENDABLE_ONE_OF_ONE_SHOWN;
    expect_run(&SHOW, EXTENDABLE_ONE_OF_ONE, alloc, (extendable, "", 0))?;
    let between = format!(in alloc; "# first\n\n{ONE_OF_ONE}\n \t\r\n  # second\n{ONE_OF_ONE}")?;
    let twice = format!(in alloc; "{SHOWN}{SHOWN}")?;
    expect_run(&SHOW, between.as_str(), alloc, (twice.as_str(), "", 0))?;
    expect_run(&SHOW, "", alloc, ("", "", 0))?;
    expect_run(&SHOW, "# only\n\n  \t\n#comments", alloc, ("", "", 0))?;
    Ok(())
}

#[test]
fn shows_thresholds(rt: HostRuntime) {
    let alloc = rt.alloc();
    let run = run_on(alloc, &SHOW, TWO_NEEDED_MEMBER_2.as_bytes());
    let fields =
        b"identifier 25653 extendable 0 exponent 2 group 0 group-threshold 1 group-count 1 member 2 member-threshold 2 value ";
    holds(&rt, run.written.as_slice().starts_with(fields));
    equal(&rt, (run.status, run.told.is_empty()), (0, true));
}

#[test]
fn refuses_the_first_bad_line(rt: HostRuntime) -> Result<(), Fail> {
    let alloc = rt.alloc();
    let cases = [
        (ONE_OF_ONE_BAD_CHECKSUM, "13 bad checksum"),
        (ONE_OF_ONE_BAD_PADDING, "14 bad padding"),
        (EXTENDABLE_TWO_WORDS_EXCHANGED, "13 bad checksum"),
        (
            "duckling enlarge academic academic agency result length solution fridge kidney coal piece deal husband erode duke ajar critical decision",
            "12 19 words make no share",
        ),
        (
            "duckling enlarge academic academic agency result length solution fridge kidney coal piece deal husband erode duke ajar critical decision keyboard academic",
            "12 21 words make no share",
        ),
        (
            "ducklin enlarge academic academic agency result length solution fridge kidney coal piece deal husband erode duke ajar critical decision keyboard",
            "11 unknown word 1",
        ),
        (
            "duckling enlarge\x0cacademic academic agency result length solution fridge kidney coal piece deal husband erode duke ajar critical decision keyboard",
            "11 unknown word 2",
        ),
    ];
    for (line, refusal) in cases {
        let message = format!(in alloc; "shamir: line 1: {refusal}\n")?;
        expect_run(&SHOW, line, alloc, ("", message.as_str(), 1))?;
        let after = format!(in alloc; "{ONE_OF_ONE}\n{line}\n{ONE_OF_ONE}\n")?;
        let message = format!(in alloc; "shamir: line 2: {refusal}\n")?;
        expect_run(&SHOW, after.as_str(), alloc, (SHOWN, message.as_str(), 1))?;
    }
    Ok(())
}

#[test]
fn refuses_long_lines(rt: HostRuntime) -> Result<(), Fail> {
    let alloc = rt.alloc();
    let mut line = String::new(alloc);
    for _ in 0..1024 {
        line.push('a')?;
    }
    let unknown = "shamir: line 1: 11 unknown word 1\n";
    expect_run(&SHOW, line.as_str(), alloc, ("", unknown, 1))?;
    line.push('a')?;
    let too_long = "shamir: line 1: 71 line too long\n";
    expect_run(&SHOW, line.as_str(), alloc, ("", too_long, 1))?;
    let comment = format!(in alloc; "{ONE_OF_ONE}\n#{line}\n")?;
    let too_long = "shamir: line 2: 71 line too long\n";
    expect_run(&SHOW, comment.as_str(), alloc, (SHOWN, too_long, 1))?;
    Ok(())
}

#[test]
fn shows_long_mnemonics(rt: HostRuntime) -> Result<(), Fail> {
    let alloc = rt.alloc();
    let long = format!(in alloc; "{ONE_OF_ONE_256_BITS}\n{LONGEST_ONE_OF_ONE}\n")?;
    let shown = format!(in alloc; "{ONE_OF_ONE_256_BITS_SHOWN}{LONGEST_ONE_OF_ONE_SHOWN}")?;
    expect_run(&SHOW, long.as_str(), alloc, (shown.as_str(), "", 0))?;
    Ok(())
}

#[test]
fn shows_many_lines_read_by_single_bytes(rt: HostRuntime) -> Result<(), Fail> {
    let alloc = rt.alloc();
    let mut input = String::new(alloc);
    let mut shown = String::new(alloc);
    for _ in 0..40 {
        input.push_str(LONGEST_ONE_OF_ONE)?;
        input.push_str("\n# a comment\r\n")?;
        shown.push_str(LONGEST_ONE_OF_ONE_SHOWN)?;
    }
    let mut written = Vec::new(alloc);
    let slow = Source::slow(input.as_bytes());
    expect_told(&SHOW, slow, &mut written, alloc, ("", 0))?;
    equal(&rt, written.as_slice(), shown.as_bytes());
    Ok(())
}
