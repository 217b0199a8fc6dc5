//! What is handed on: a failed flush, a write that the system interrupts, whole pieces; and that nothing behind a line is
//! asked for before the line is taken.

use crate::expect::{equal, equal_for};
use s39_fixtures::devices::{
    FailingAtFirst, Filling, Flushing, Full, Interrupted, SlowLine, Source,
};
use s39_fixtures::{
    DRILL, FIVE, ONE_OF_ONE, ONE_OF_ONE_SECRET, ONE_OF_ONE_TWO_WORDS_LOST, RANDOM, RECOVER, REPAIR,
    SECRET, SHOW, SHOWN, WRITE_FAILED_LINE, create, drilled, expect_flushed, expect_told, lines,
    program, program_at_terminal,
};
use s39_input::Counting;
use std::alloc::Global;
use std::io::ErrorKind;
use std::process::Abort;
use std::test::Fail;

#[test]
fn answers_a_failed_flush(rt: HostRuntime) -> Result<(), Fail> {
    let alloc = rt.alloc();
    let five = lines(alloc, &FIVE)?;
    let drilled = drilled(alloc)?;
    let create = create("2/2of3,1of1,1of1", SECRET);
    let repaired = lines(alloc, &[ONE_OF_ONE])?;
    let cases: [(&[&str], &[u8], &str); 5] = [
        (&SHOW, ONE_OF_ONE.as_bytes(), SHOWN),
        (
            &REPAIR,
            ONE_OF_ONE_TWO_WORDS_LOST.as_bytes(),
            repaired.as_str(),
        ),
        (&create, &RANDOM, five.as_str()),
        (&RECOVER, ONE_OF_ONE.as_bytes(), ONE_OF_ONE_SECRET),
        (&DRILL, five.as_bytes(), drilled.as_str()),
    ];
    for (words, input, output) in cases {
        expect_flushed(words, input, alloc, false, (output, "", 0, 1))?;
        expect_flushed(words, input, alloc, true, (output, WRITE_FAILED_LINE, 3, 1))?;
    }
    Ok(())
}

/// The words over a writer that is interrupted so often before each call that it takes: the output, and the calls.
fn expect_calls(
    rt: &impl Abort,
    alloc: Global,
    interruptions: usize,
    case: (bool, &[&str], &str),
    wanted: (&str, usize),
) {
    let (is_terminal, words, input) = case;
    let (output, calls) = wanted;
    let mut device = Interrupted::new(alloc, interruptions);
    let told = Vec::new(alloc);
    let status = if is_terminal {
        program_at_terminal(alloc, words, input.as_bytes(), &mut device, told)
    } else {
        program(alloc, words, input.as_bytes(), &mut device, told)
    };
    equal_for(rt, words, (status, device.calls), (0, calls));
    equal_for(rt, words, device.bytes.as_slice(), output.as_bytes());
}

/// Two mnemonics shown in a pipe and at a terminal, two repaired likewise, and a drill: in as many pieces each.
fn expect_pieces(
    rt: &impl Abort,
    alloc: Global,
    interruptions: usize,
    calls: [usize; 5],
) -> Result<(), Fail> {
    let two = lines(alloc, &[ONE_OF_ONE, ONE_OF_ONE])?;
    let shown = SHOWN.repeat(alloc, 2)?;
    let lost = lines(alloc, &[ONE_OF_ONE_TWO_WORDS_LOST, ONE_OF_ONE])?;
    let five = lines(alloc, &FIVE)?;
    let drilled = drilled(alloc)?;
    let cases: [((bool, &[&str], &str), &str); 5] = [
        ((false, &SHOW, two.as_str()), shown.as_str()),
        ((true, &SHOW, two.as_str()), shown.as_str()),
        ((false, &REPAIR, lost.as_str()), two.as_str()),
        ((true, &REPAIR, lost.as_str()), two.as_str()),
        ((false, &DRILL, five.as_str()), drilled.as_str()),
    ];
    for ((case, output), calls) in cases.into_iter().zip(calls) {
        expect_calls(rt, alloc, interruptions, case, (output, calls));
    }
    Ok(())
}

#[test]
fn writes_again_after_each_interruption(rt: HostRuntime) -> Result<(), Fail> {
    expect_pieces(&rt, rt.alloc(), 3, [8, 8, 8, 8, 32])?;
    expect_pieces(&rt, rt.alloc(), 1000, [2002, 2002, 2002, 2002, 8008])
}

#[test]
fn reads_a_value_after_each_interruption(rt: HostRuntime) -> Result<(), Fail> {
    let alloc = rt.alloc();
    let typed = lines(alloc, &["TREZOR", ONE_OF_ONE])?;
    let words = ["shamir", "recover", "--passphrase-file", "-"];
    // Seven bytes of the value after the interruptions of each, the mnemonic in one piece, and the end.
    for (interruptions, calls) in [(0, 9), (1, 16), (1000, 7009)] {
        let mut device = SlowLine::new(typed.as_bytes(), interruptions);
        let mut written = Vec::new(alloc);
        expect_told(&words, &mut device, &mut written, alloc, ("", 0))?;
        equal(&rt, written.as_slice(), ONE_OF_ONE_SECRET.as_bytes());
        equal(&rt, device.calls, calls);
    }
    Ok(())
}

#[test]
fn hands_lines_on_as_they_are_known(rt: HostRuntime) -> Result<(), Fail> {
    expect_pieces(&rt, rt.alloc(), 1, [4, 4, 4, 4, 16])
}

#[test]
fn reads_and_writes_whole_pieces(rt: HostRuntime) -> Result<(), Fail> {
    let mut input = Counting::new(ONE_OF_ONE.as_bytes());
    let mut buf = [0; 64];
    equal(&rt, input.read(&mut buf)?, 64);
    equal(&rt, buf.as_slice(), &ONE_OF_ONE.as_bytes()[..64]);
    let mut output = Counting::new(Vec::new(rt.alloc()));
    equal(&rt, output.write(ONE_OF_ONE.as_bytes())?, ONE_OF_ONE.len());
    Ok(())
}

#[test]
fn takes_a_line_before_it_reads_on(rt: HostRuntime) -> Result<(), Fail> {
    let alloc = rt.alloc();
    let two = lines(alloc, &[ONE_OF_ONE, ONE_OF_ONE])?;
    let line = ONE_OF_ONE.len() + 1;
    // A line of the first piece that can't be written.
    for piece in [line, line + 1, 4096] {
        for words in [SHOW, REPAIR] {
            let mut input = Source::new(two.as_bytes(), piece, usize::MAX);
            let status = program(alloc, &words, &mut input, Full, Vec::new(alloc));
            equal_for(&rt, words, (status, input.calls), (3, 1));
        }
    }
    // One that is refused, beside what a reader would give next.
    let mut refused = String::new(alloc);
    refused.push_str("ducklin\n")?;
    refused.push_str(two.as_str())?;
    for words in [SHOW.as_slice(), &REPAIR, &RECOVER, &DRILL] {
        let mut input = Source::new(refused.as_bytes(), 8, usize::MAX);
        let status = program(alloc, words, &mut input, Vec::new(alloc), Vec::new(alloc));
        equal_for(&rt, words, (status, input.calls), (1, 1));
    }
    Ok(())
}

#[test]
fn writes_nothing_after_a_failed_write(rt: HostRuntime) -> Result<(), Fail> {
    let alloc = rt.alloc();
    let five = lines(alloc, &FIVE)?;
    for room in [0, 1, 44, 45, 46] {
        let mut narrow = Filling::new(alloc, 1, room);
        let input = five.as_bytes();
        expect_told(&DRILL, input, &mut narrow, alloc, (WRITE_FAILED_LINE, 3))?;
        equal(&rt, (narrow.bytes.len(), narrow.failed_calls), (room, 1));
    }
    Ok(())
}

#[test]
fn tries_only_an_interrupted_write_again(rt: HostRuntime) -> Result<(), Fail> {
    let alloc = rt.alloc();
    let five = lines(alloc, &FIVE)?;
    let kinds = [
        ErrorKind::BrokenPipe,
        ErrorKind::WouldBlock,
        ErrorKind::TimedOut,
        ErrorKind::WriteZero,
        ErrorKind::OutOfMemory,
        ErrorKind::Other,
    ];
    for kind in kinds {
        for words in [DRILL.as_slice(), &RECOVER] {
            let mut device = FailingAtFirst::new(alloc, kind, 1, b"");
            let input = five.as_bytes();
            expect_told(words, input, &mut device, alloc, (WRITE_FAILED_LINE, 3))?;
            equal_for(&rt, words, (device.calls, device.written.len()), (1, 0));
            equal_for(&rt, words, device.flushes, 0);
        }
    }
    Ok(())
}

/// The line before a refused one is written and flushed once, at a terminal and in a pipe. The answer is this message and status.
fn expect_flushed_line(
    rt: &impl Abort,
    alloc: Global,
    fails: bool,
    answer: (&str, u8),
) -> Result<(), Fail> {
    let two = lines(alloc, &[ONE_OF_ONE, "ducklin"])?;
    let mut piped = Flushing::new(alloc, fails);
    expect_told(&SHOW, two.as_bytes(), &mut piped, alloc, answer)?;
    equal(
        rt,
        (piped.flushes, piped.bytes.as_slice()),
        (1, SHOWN.as_bytes()),
    );
    let mut device = Flushing::new(alloc, fails);
    let mut told = Vec::new(alloc);
    let status = program_at_terminal(alloc, &SHOW, two.as_bytes(), &mut device, &mut told);
    let (message, wanted) = answer;
    equal(rt, (status, device.flushes), (wanted, 1));
    equal(rt, device.bytes.as_slice(), SHOWN.as_bytes());
    let typing = "shamir: type a mnemonic on each line, then press Ctrl-D on an empty line\n";
    equal(
        rt,
        told.as_slice().strip_prefix(typing.as_bytes()),
        Some(message.as_bytes()),
    );
    Ok(())
}

#[test]
fn flushes_the_lines_before_a_refusal(rt: HostRuntime) -> Result<(), Fail> {
    let alloc = rt.alloc();
    let refused = "shamir: line 2: 11 unknown word 1\n";
    expect_flushed_line(&rt, alloc, false, (refused, 1))?;
    // If the flush fails, the answer is that the write failed.
    expect_flushed_line(&rt, alloc, true, (WRITE_FAILED_LINE, 3))
}
