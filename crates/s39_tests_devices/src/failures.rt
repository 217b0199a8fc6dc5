//! Runs over devices that fail at one of their calls, give or take single bytes, or take none.

use crate::commands::{
    COMMANDS, Command, Example, READ_FAILED, Told, WRITE_FAILED, example_of, outcome_of, told,
};
use crate::expect::{equal, equal_for, holds, holds_for};
use s39_fixtures::devices::{FailingAtFirst, Filling, Full, Interrupted, Source};
use s39_fixtures::{
    ONE_OF_ONE, ONE_OF_ONE_BAD_CHECKSUM, ONE_OF_ONE_BAD_PADDING, ONE_OF_ONE_TWO_WORDS_LOST, SHOW,
    SHOWN, WRITE_FAILED_LINE, expect_told, lines,
};
use s39_input::{Counting, LineRefusal, run_show};
use s39_words::WordError;
use std::alloc::{AllocError, Global};
use std::io::ErrorKind;
use std::process::Abort;
use std::test::Fail;

/// A refusal of the first line.
fn at_line_1(refusal: LineRefusal) -> Result<u32, Told> {
    Err((Some(1), refusal.cause()))
}

#[test]
fn answers_the_lines_before_a_failed_read(rt: HostRuntime) -> Result<(), Fail> {
    let alloc = rt.alloc();
    let repaired = lines(alloc, &[ONE_OF_ONE])?;
    for (command, line, output) in [
        (Command::Show, ONE_OF_ONE, SHOWN),
        (
            Command::Repair,
            ONE_OF_ONE_TWO_WORDS_LOST,
            repaired.as_str(),
        ),
    ] {
        let whole = format!(in alloc; "{line}\n")?;
        let started = format!(in alloc; "{line}\n{ONE_OF_ONE_BAD_CHECKSUM}")?;
        for text in [whole.as_str(), started.as_str()] {
            let device = Source::cut(text.as_bytes());
            let outcome = outcome_of(command, device, Vec::new(alloc));
            equal(&rt, outcome.answer, Err(READ_FAILED));
            equal(&rt, outcome.failures, (1, 0));
            equal(&rt, outcome.input.calls, text.len() + 1);
            equal(&rt, outcome.output.as_slice(), output.as_bytes());
        }
    }
    Ok(())
}

#[test]
fn says_which_device_failed(rt: HostRuntime) -> Result<(), Fail> {
    let alloc = rt.alloc();
    let line = format!(in alloc; "{ONE_OF_ONE}\n")?;
    let mut written = Vec::new(alloc);
    let cut = Source::cut(line.as_bytes());
    let read_failed = ("shamir: 72 read failed\n", 3);
    expect_told(&SHOW, cut, &mut written, alloc, read_failed)?;
    equal(&rt, written.as_slice(), SHOWN.as_bytes());
    let mut narrow = Filling::new(alloc, 1, 0);
    let input = ONE_OF_ONE.as_bytes();
    expect_told(&SHOW, input, &mut narrow, alloc, (WRITE_FAILED_LINE, 3))?;
    equal(&rt, narrow.failed_calls, 1);
    Ok(())
}

#[test]
fn shows_beginnings_of_a_mnemonic(rt: HostRuntime) -> Result<(), Fail> {
    let alloc = rt.alloc();
    let text = ONE_OF_ONE.as_bytes();
    for end in 0..=text.len() {
        let (begun, rest) = text.split_at(end);
        let words = std::str::from_utf8(begun)?.split_ascii_whitespace().count();
        let is_inside = !begun.ends_with(b" ") && !rest.starts_with(b" ") && !rest.is_empty();
        let (wanted, shown) = match words {
            0 => (Ok(0), ""),
            20 if !is_inside => (Ok(0), SHOWN),
            words if is_inside => (
                at_line_1(LineRefusal::Word(WordError::UnknownWord { position: words })),
                "",
            ),
            words => (
                at_line_1(LineRefusal::Word(WordError::WordCount { words })),
                "",
            ),
        };
        let ended = outcome_of(Command::Show, begun, Vec::new(alloc));
        equal_for(&rt, end, ended.answer, wanted);
        equal(&rt, ended.output.as_slice(), shown.as_bytes());
        let failed = outcome_of(Command::Show, Source::cut(begun), Vec::new(alloc));
        equal_for(&rt, end, failed.answer, Err(READ_FAILED));
        equal(&rt, failed.failures, (1, 0));
        equal(&rt, failed.input.calls, begun.len() + 1);
        holds(&rt, failed.output.is_empty());
    }
    Ok(())
}

/// So many of a byte.
fn repeated(alloc: Global, byte: u8, count: usize) -> Result<Vec<u8>, AllocError> {
    let mut bytes = Vec::new(alloc);
    for _ in 0..count {
        bytes.push(byte)?;
    }
    Ok(bytes)
}

#[test]
fn shows_lines_of_any_bytes(rt: HostRuntime) -> Result<(), Fail> {
    let alloc = rt.alloc();
    let unknown = at_line_1(LineRefusal::Word(WordError::UnknownWord { position: 1 }));
    for other in [0, 195] {
        let mut bytes = Vec::from_slice(alloc, ONE_OF_ONE.as_bytes())?;
        bytes[3] = other;
        let outcome = outcome_of(Command::Show, bytes.as_slice(), Vec::new(alloc));
        equal_for(&rt, other, outcome.answer, unknown);
        holds(&rt, outcome.output.is_empty());
    }
    let mut longest = Vec::from_slice(alloc, ONE_OF_ONE.as_bytes())?;
    for _ in longest.len()..1024 {
        longest.push(b' ')?;
    }
    longest.push(b'\n')?;
    let outcome = outcome_of(Command::Show, longest.as_slice(), Vec::new(alloc));
    equal(&rt, outcome.answer, Ok(0));
    equal(&rt, outcome.output.as_slice(), SHOWN.as_bytes());
    let mut comment = repeated(alloc, b'#', 1024)?;
    let letters = repeated(alloc, b'a', 1024)?;
    for bytes in [comment.as_slice(), letters.as_slice()] {
        let outcome = outcome_of(Command::Show, Source::cut(bytes), Vec::new(alloc));
        equal(&rt, outcome.answer, Err(READ_FAILED));
        equal(&rt, outcome.input.calls, bytes.len() + 1);
        holds(&rt, outcome.output.is_empty());
    }
    comment.push(b'x')?;
    let bytes = comment.as_slice();
    let outcome = outcome_of(Command::Show, Source::cut(bytes), Vec::new(alloc));
    equal(&rt, outcome.answer, at_line_1(LineRefusal::TooLong));
    equal(&rt, outcome.failures, (0, 0));
    equal(&rt, outcome.input.calls, bytes.len());
    holds(&rt, outcome.output.is_empty());
    Ok(())
}

/// Runs the command over a writer that takes `room` bytes in all, at most `piece` in a call. A beginning of the output is
/// written, and the answer is 73 if and only if that isn't all of it.
fn expect_beginning(rt: &impl Abort, alloc: Global, example: &Example, piece: usize, room: usize) {
    let command = example.command;
    let whole = example.output.as_bytes();
    let outcome = outcome_of(
        command,
        example.input.as_slice(),
        Filling::new(alloc, piece, room),
    );
    let is_whole = room >= whole.len();
    let (wanted, failures) = if is_whole {
        (Ok(0), 0)
    } else {
        (Err(WRITE_FAILED), 1)
    };
    equal_for(rt, (command, room), outcome.answer, wanted);
    equal(rt, outcome.failures, (0, failures));
    let written = outcome.output.bytes.as_slice();
    equal(rt, written.len(), room.min(whole.len()));
    holds_for(rt, (command, room), whole.starts_with(written));
    // No other write follows the failed one.
    equal(rt, outcome.output.failed_calls as u64, failures);
}

#[test]
fn writes_beginnings(rt: HostRuntime) -> Result<(), Fail> {
    let alloc = rt.alloc();
    let cases: [(Command, usize, &[usize]); 4] = [
        (Command::Show, 147, &[0, 1, 146, 147]),
        (Command::Repair, 146, &[0, 1, 145, 146]),
        (Command::Create, 715, &[0, 141, 714, 715]),
        (Command::Recover, 33, &[0, 1, 32, 33]),
    ];
    for (command, length, rooms) in cases {
        let example = example_of(alloc, command)?;
        equal(&rt, example.output.len(), length);
        for room in rooms {
            for piece in [1, 100] {
                expect_beginning(&rt, alloc, &example, piece, *room);
            }
        }
    }
    Ok(())
}

#[test]
fn writes_each_beginning_of_a_drill(rt: HostRuntime) -> Result<(), Fail> {
    let alloc = rt.alloc();
    let example = example_of(alloc, Command::Drill)?;
    equal(&rt, example.output.len(), 315);
    for room in 0..=315 {
        expect_beginning(&rt, alloc, &example, 100, room);
    }
    Ok(())
}

#[test]
fn answers_a_write_of_nothing(rt: HostRuntime) -> Result<(), Fail> {
    for command in COMMANDS {
        let example = example_of(rt.alloc(), command)?;
        let outcome = outcome_of(command, example.input.as_slice(), Full);
        equal_for(&rt, command, outcome.answer, Err(WRITE_FAILED));
        equal(&rt, outcome.failures, (0, 1));
    }
    Ok(())
}

#[test]
fn tries_no_interrupted_call_again(rt: HostRuntime) -> Result<(), Fail> {
    let alloc = rt.alloc();
    for command in COMMANDS {
        let input = FailingAtFirst::new(alloc, ErrorKind::Interrupted, 1, b"");
        let read = outcome_of(command, input, Vec::new(alloc));
        equal_for(&rt, command, read.answer, Err(READ_FAILED));
        equal(&rt, (read.failures, read.input.calls), ((1, 0), 1));
        holds(&rt, read.output.is_empty());
        let example = example_of(alloc, command)?;
        let pipe = Interrupted::new(alloc, 1);
        let written = outcome_of(command, example.input.as_slice(), pipe);
        equal_for(&rt, command, written.answer, Err(WRITE_FAILED));
        equal(&rt, (written.failures, written.output.calls), ((0, 1), 1));
        holds(&rt, written.output.bytes.is_empty());
    }
    Ok(())
}

#[test]
fn answers_each_failed_read(rt: HostRuntime) -> Result<(), Fail> {
    let alloc = rt.alloc();
    for command in COMMANDS {
        let example = example_of(alloc, command)?;
        let input = example.input.as_slice();
        for piece in [7, 4096] {
            // The last of these calls is the one that gives no byte.
            let calls = input.len().div_ceil(piece) + 1;
            for good_calls in 0..calls {
                let device = Source::new(input, piece, good_calls);
                let outcome = outcome_of(command, device, Vec::new(alloc));
                equal_for(
                    &rt,
                    (command, piece, good_calls),
                    outcome.answer,
                    Err(READ_FAILED),
                );
                equal(&rt, outcome.failures, (1, 0));
                holds(&rt, outcome.output.is_empty());
                // No other read follows the failed one.
                equal(&rt, outcome.input.calls, good_calls + 1);
            }
        }
    }
    Ok(())
}

#[test]
fn takes_and_gives_single_bytes(rt: HostRuntime) -> Result<(), Fail> {
    let alloc = rt.alloc();
    for command in COMMANDS {
        let example = example_of(alloc, command)?;
        let device = Source::slow(example.input.as_slice());
        let outcome = outcome_of(command, device, Filling::new(alloc, 1, 4096));
        equal_for(&rt, command, outcome.answer, Ok(0));
        equal(&rt, outcome.failures, (0, 0));
        equal(
            &rt,
            outcome.output.bytes.as_slice(),
            example.output.as_bytes(),
        );
    }
    Ok(())
}

#[test]
fn counts_a_write_of_nothing_as_a_failure(rt: HostRuntime) -> Result<(), Fail> {
    let mut output = Counting::new(Full);
    assert!(rt; output.write(b"a").is_err());
    assert_eq!(rt; output.failures(), 1);
    assert_eq!(rt; output.write(b"")?, 0);
    assert_eq!(rt; output.failures(), 1);
    let mut input = Counting::new(b"ab".as_slice());
    let mut buf = [0; 4];
    equal(&rt, input.read(&mut buf)?, 2);
    equal(&rt, input.failures(), 0);
    let mut input = Counting::new(ONE_OF_ONE_BAD_PADDING.as_bytes());
    let answer = run_show(&mut input, &mut output).map_err(told);
    let refusal = LineRefusal::Word(WordError::BadPadding);
    equal(&rt, answer, Err((Some(1), refusal.cause())));
    Ok(())
}
