//! What a person is told while a drill lists.

use crate::expect::{equal, equal_for};
use crate::person::{Screen, TOLD, run};
use s39_cli::{Person, Terminals};
use s39_fixtures::{ALL_TERMINALS, FIVE, NO_TERMINAL, drilled, lines};
use s39_input::Watch;
use std::alloc::Global;
use std::process::Abort;
use std::test::Fail;

const TYPING: &str = "shamir: type a mnemonic on each line, then press Ctrl-D on an empty line\n";

const BARE: &str = "shamir: no passphrase was used: a backup with one gives another secret here\n";

const SEVEN: &str = "shamir: number of quorums: 7\n";

/// The input comes from a terminal, and messages go to one.
const TYPED: Terminals = Terminals {
    input: true,
    output: false,
    errors: true,
};

/// Input and output are at a terminal, and messages go elsewhere.
const SEEN: Terminals = Terminals {
    input: true,
    output: true,
    errors: false,
};

/// A drill of five mnemonics with these words and terminals lists as many quorums as it does without, and says these lines.
fn expect_progress(
    rt: &impl Abort,
    alloc: Global,
    words: &[&str],
    terminals: Terminals,
    wanted: &[&str],
) -> Result<(), Fail> {
    let five = lines(alloc, &FIVE)?;
    let (mut plain, mut output) = (Vec::new(alloc), Vec::new(alloc));
    let mut said = Screen::new(alloc);
    let run_of = (words, five.as_str(), NO_TERMINAL);
    let quiet = run(alloc, run_of, &mut plain, &mut Screen::Full);
    let run_of = (words, five.as_str(), terminals);
    let status = run(alloc, run_of, &mut output, &mut said);
    equal_for(
        rt,
        words,
        (status, output.as_slice()),
        (quiet, plain.as_slice()),
    );
    let mut all = String::new(alloc);
    for line in wanted {
        all.push_str(line)?;
    }
    equal_for(rt, words, said.text(), all.as_bytes());
    Ok(())
}

#[test]
fn tells_how_many_quorums_are_listed(rt: HostRuntime) -> Result<(), Fail> {
    let alloc = rt.alloc();
    let all = "shamir: quorums listed: 1\nshamir: quorums listed: 2\nshamir: quorums listed: 4\n";
    let two = "shamir: quorums listed: 1\nshamir: quorums listed: 2\n";
    let drill = ["shamir", "drill", "--passphrase="];
    expect_progress(&rt, alloc, &drill, TOLD, &[SEVEN, all])?;
    expect_progress(&rt, alloc, &drill, TYPED, &[TYPING, SEVEN, all])?;
    expect_progress(&rt, alloc, &drill, NO_TERMINAL, &[])?;
    for terminals in [SEEN, ALL_TERMINALS] {
        expect_progress(&rt, alloc, &drill, terminals, &[TYPING, SEVEN])?;
    }
    let cases: [(&[&str], &[&str]); 7] = [
        (&["shamir", "drill", "--limit=3"], &[SEVEN, two, BARE]),
        (&["shamir", "drill", "--limit=4"], &[SEVEN, all, BARE]),
        (
            &["shamir", "drill", "--after=0.1+0.2+1.0"],
            &[SEVEN, two, BARE],
        ),
        (&["shamir", "drill", "--after=1.0+2.0"], &[SEVEN, BARE]),
        (
            &["shamir", "drill", "--after=0.0"],
            &["shamir: 62 cursor is no quorum\n"],
        ),
        (
            &["shamir", "drill", "--after=x"],
            &["shamir: 61 bad cursor\n"],
        ),
        (&["shamir", "recover"], &[BARE]),
    ];
    for (words, wanted) in cases {
        expect_progress(&rt, alloc, words, TOLD, wanted)?;
    }
    Ok(())
}

#[test]
fn tells_powers_of_two_and_then_multiples_of_the_greatest(rt: HostRuntime) -> Result<(), Fail> {
    let alloc = rt.alloc();
    let mut said = Screen::new(alloc);
    let mut person = Person::new(&mut said, TOLD);
    for count in 1..=40 {
        person.listed(count);
    }
    let many = [
        524_287,
        524_288,
        1_048_575,
        1_048_576,
        1_048_577,
        1_572_864,
        2_097_152,
        3_145_728,
        4_194_303,
        4_293_918_720,
        4_294_967_295,
    ];
    for count in many {
        person.listed(count);
    }
    let mut all = String::new(alloc);
    let told = [
        1,
        2,
        4,
        8,
        16,
        32,
        524_288,
        1_048_576,
        2_097_152,
        3_145_728,
        4_293_918_720u32,
    ];
    for count in told {
        let line = format!(in alloc; "shamir: quorums listed: {count}\n")?;
        all.push_str(&line)?;
    }
    equal(&rt, said.text(), all.as_bytes());
    Ok(())
}

#[test]
fn lists_on_where_its_number_cant_be_told(rt: HostRuntime) -> Result<(), Fail> {
    let alloc = rt.alloc();
    let five = lines(alloc, &FIVE)?;
    let words = ["shamir", "drill", "--passphrase=TREZOR"];
    let mut output = Vec::new(alloc);
    let run_of = (words.as_slice(), five.as_str(), TOLD);
    let status = run(alloc, run_of, &mut output, &mut Screen::Full);
    equal(
        &rt,
        (status, output.as_slice()),
        (0, drilled(alloc)?.as_bytes()),
    );
    Ok(())
}
