//! What a person at a terminal is told, and that a message is one write.

use crate::expect::{equal, equal_for, holds_for};
use crate::person::{Screen, TOLD, run};
use s39_cli::Terminals;
use s39_fixtures::{
    FIVE, NO_TERMINAL, ONE_OF_ONE, ONE_OF_ONE_BAD_CHECKSUM, TWO_NEEDED_MEMBER_0,
    TWO_NEEDED_MEMBER_2, forged, lines,
};
use std::alloc::Global;
use std::process::Abort;
use std::test::Fail;

const TYPING: &str = "shamir: type a mnemonic on each line, then press Ctrl-D on an empty line\n";

const SECRET_ASKED: &str =
    "shamir: type the digits of the secret, then press Enter: they are shown as they are typed\n";

const PASSPHRASE_ASKED: &str =
    "shamir: type the passphrase, then press Enter: it is shown as it is typed (docs/SCRIPTS.md says how to hide it)\n";

const BARE: &str = "shamir: no passphrase was used: a backup with one gives another secret here\n";

const ONE: &str = "shamir: number of quorums: 1\n";

const LISTED: &str = "shamir: quorums listed: 1\n";

const SEVEN: &str = "shamir: number of quorums: 7\n";

const PLAN_FORM: &str =
    "shamir: a plan is TofN for one group, or GT/T1ofN1,T2ofN2,.. for several, as 2of3 or 2/2of3,1of1,1of1\n";

const NEW_SECRET: &str =
    "shamir: shamir-papers new asks step by step; to draw a new secret by hand: od -An -v -tx1 -N16 /dev/urandom | tr -dc 0-9a-f | install -m 600 /dev/stdin /dev/shm/secret\n";

const NO_SECRET: &str =
    "error: one of --master-secret <HEX> and --master-secret-file <FILE> is required\n\nFor more information, try '--help'.\n";

/// Only the input comes from a terminal.
const TYPED: Terminals = Terminals {
    input: true,
    output: false,
    errors: false,
};

/// Only the output goes to a terminal.
const SEEN: Terminals = Terminals {
    input: false,
    output: true,
    errors: false,
};

/// The words at these terminals say these lines, one after another, with this status.
fn expect_said(
    rt: &impl Abort,
    alloc: Global,
    (words, input, terminals): (&[&str], &str, Terminals),
    wanted: &[&str],
    status: u8,
) -> Result<(), Fail> {
    let mut said = Screen::new(alloc);
    let run_of = (words, input, terminals);
    let answer = run(alloc, run_of, &mut Vec::new(alloc), &mut said);
    let mut all = String::new(alloc);
    for line in wanted {
        all.push_str(line)?;
    }
    equal_for(rt, words, said.text(), all.as_bytes());
    equal_for(rt, words, answer, status);
    Ok(())
}

#[test]
fn asks_for_mnemonics_at_a_terminal(rt: HostRuntime) -> Result<(), Fail> {
    let alloc = rt.alloc();
    let one = lines(alloc, &[ONE_OF_ONE])?;
    let commands: [(&[&str], &str, &str); 6] = [
        (&["shamir", "show"], "", ""),
        (&["shamir", "recover", "--passphrase", "TREZOR"], "", ""),
        (&["shamir", "drill", "--passphrase="], ONE, LISTED),
        (&["shamir", "status"], "", ""),
        (&["shamir", "reissue", "1of1", "0.0"], "", ""),
        (&["shamir", "repair"], "", ""),
    ];
    for (words, told, listed) in commands {
        expect_said(&rt, alloc, (words, &one, TYPED), &[TYPING, told], 0)?;
        expect_said(&rt, alloc, (words, &one, SEEN), &[told], 0)?;
        expect_said(&rt, alloc, (words, &one, TOLD), &[told, listed], 0)?;
        expect_said(&rt, alloc, (words, &one, NO_TERMINAL), &[], 0)?;
    }
    Ok(())
}

#[test]
fn asks_for_none_where_a_value_is_refused(rt: HostRuntime) -> Result<(), Fail> {
    let alloc = rt.alloc();
    let one = lines(alloc, &[ONE_OF_ONE])?;
    let cases: [(&[&str], &str, u8); 6] = [
        (
            &["shamir", "drill", "--after", "x"],
            "shamir: 61 bad cursor\n",
            1,
        ),
        (
            &["shamir", "recover", "--expect", "x"],
            "shamir: 44 bad fingerprint\n",
            1,
        ),
        (
            &["shamir", "drill", "--expect", "x"],
            "shamir: 44 bad fingerprint\n",
            1,
        ),
        (
            &["shamir", "reissue", "1of1", "x"],
            "shamir: 63 bad list of names\n",
            1,
        ),
        (
            &["shamir", "recover", "--passphrase", "\x07"],
            "shamir: 41 passphrase byte 1 not printable\n",
            1,
        ),
        (
            &["shamir", "drill", "--passphrase", "a\x07"],
            "shamir: 41 passphrase byte 2 not printable\n",
            1,
        ),
    ];
    for (words, told, status) in cases {
        expect_said(&rt, alloc, (words, &one, TYPED), &[told], status)?;
    }
    Ok(())
}

#[test]
fn tells_that_no_passphrase_was_used(rt: HostRuntime) -> Result<(), Fail> {
    let alloc = rt.alloc();
    let one = lines(alloc, &[ONE_OF_ONE])?;
    let five = lines(alloc, &FIVE)?;
    for (command, count, listed) in [("recover", "", ""), ("drill", ONE, LISTED)] {
        let bare = ["shamir", command];
        expect_said(&rt, alloc, (&bare, &one, TYPED), &[TYPING, count, BARE], 0)?;
        expect_said(&rt, alloc, (&bare, &one, SEEN), &[count, BARE], 0)?;
        expect_said(&rt, alloc, (&bare, &one, TOLD), &[count, listed, BARE], 0)?;
        expect_said(&rt, alloc, (&bare, &one, NO_TERMINAL), &[], 0)?;
        let told = ["shamir", command, "--fingerprint"];
        expect_said(&rt, alloc, (&told, &one, SEEN), &[count, BARE], 0)?;
        for option in [
            "--passphrase=",
            "--passphrase=TREZOR",
            "--passphrase-file=f",
        ] {
            let given = ["shamir", command, option];
            expect_said(&rt, alloc, (&given, &one, TYPED), &[TYPING, count], 0)?;
            expect_said(&rt, alloc, (&given, &one, SEEN), &[count], 0)?;
        }
    }
    expect_said(
        &rt,
        alloc,
        (&["shamir", "drill"], &five, SEEN),
        &[SEVEN, BARE],
        0,
    )?;
    let other = ["shamir", "drill", "--expect=00000000"];
    expect_said(&rt, alloc, (&other, &one, SEEN), &[ONE], 1)?;
    Ok(())
}

#[test]
fn tells_that_no_passphrase_was_used_after_mismatches(rt: HostRuntime) -> Result<(), Fail> {
    let alloc = rt.alloc();
    let first = forged(TWO_NEEDED_MEMBER_0, 0xFF)?;
    let second = forged(TWO_NEEDED_MEMBER_2, 0xFD)?;
    let changed = lines(
        alloc,
        &[
            std::str::from_utf8(first.as_slice())?,
            std::str::from_utf8(second.as_slice())?,
        ],
    )?;
    let drill = ["shamir", "drill"];
    expect_said(&rt, alloc, (&drill, &changed, SEEN), &[ONE, BARE], 1)?;
    expect_said(&rt, alloc, (&drill, &changed, NO_TERMINAL), &[], 1)?;
    Ok(())
}

#[test]
fn tells_how_many_quorums_a_set_has(rt: HostRuntime) -> Result<(), Fail> {
    let alloc = rt.alloc();
    let five = lines(alloc, &FIVE)?;
    let cases: [(&[&str], &str, u8); 5] = [
        (&["shamir", "drill", "--passphrase="], SEVEN, 0),
        (&["shamir", "drill", "--passphrase=", "--limit=2"], SEVEN, 0),
        (
            &["shamir", "drill", "--passphrase=", "--after=0.0+0.1+1.0"],
            SEVEN,
            0,
        ),
        (
            &["shamir", "drill", "--passphrase=", "--after=0.0"],
            "shamir: 62 cursor is no quorum\n",
            1,
        ),
        (&["shamir", "recover", "--passphrase="], "", 0),
    ];
    for (words, told, status) in cases {
        expect_said(&rt, alloc, (words, &five, SEEN), &[told], status)?;
        expect_said(&rt, alloc, (words, &five, TYPED), &[TYPING, told], status)?;
    }
    let quiet = ["shamir", "drill", "--passphrase="];
    expect_said(&rt, alloc, (&quiet, &five, NO_TERMINAL), &[], 0)?;
    Ok(())
}

#[test]
fn tells_nothing_more_after_a_refusal(rt: HostRuntime) -> Result<(), Fail> {
    let alloc = rt.alloc();
    let lack = "shamir: 30 incomplete: 0 of 1 groups\n";
    let few = lines(alloc, &[TWO_NEEDED_MEMBER_2])?;
    let bad = lines(alloc, &[ONE_OF_ONE_BAD_CHECKSUM])?;
    let checksum = "shamir: line 1: 13 bad checksum\n";
    for command in ["recover", "drill"] {
        let words = ["shamir", command];
        expect_said(&rt, alloc, (&words, &few, SEEN), &[lack], 1)?;
        expect_said(&rt, alloc, (&words, &few, TYPED), &[TYPING, lack], 1)?;
        expect_said(&rt, alloc, (&words, &bad, TYPED), &[TYPING, checksum], 1)?;
    }
    Ok(())
}

#[test]
fn tells_a_person_what_a_plan_and_a_secret_are(rt: HostRuntime) -> Result<(), Fail> {
    let alloc = rt.alloc();
    let bad = "shamir: 31 bad plan\n";
    let members = "shamir: 33 bad number of members in plan group 0\n";
    let cases: [(&[&str], &str, &str, u8); 4] = [
        (&["shamir", "create", "1of1"], NO_SECRET, NEW_SECRET, 2),
        (&["shamir", "reissue", "x", "0.0"], bad, PLAN_FORM, 1),
        (
            &["shamir", "resplit", "x", "--random-file=f"],
            bad,
            PLAN_FORM,
            1,
        ),
        (&["shamir", "reissue", "3of2", "0.0"], members, "", 1),
    ];
    for (words, told, more, status) in cases {
        expect_said(&rt, alloc, (words, "", TYPED), &[told, more], status)?;
        expect_said(&rt, alloc, (words, "", SEEN), &[told, more], status)?;
        expect_said(&rt, alloc, (words, "", TOLD), &[told, more], status)?;
        expect_said(&rt, alloc, (words, "", NO_TERMINAL), &[told], status)?;
    }
    let create = ["shamir", "create", "x", "--master-secret=00"];
    expect_said(&rt, alloc, (&create, "", SEEN), &[bad, PLAN_FORM], 1)?;
    expect_said(&rt, alloc, (&create, "", NO_TERMINAL), &[bad], 1)?;
    Ok(())
}

#[test]
fn asks_for_a_passphrase_in_the_input(rt: HostRuntime) -> Result<(), Fail> {
    let alloc = rt.alloc();
    let typed = lines(alloc, &["TREZOR", ONE_OF_ONE])?;
    let words = ["shamir", "recover", "--passphrase-file=-"];
    let asked = [PASSPHRASE_ASKED, TYPING];
    expect_said(&rt, alloc, (&words, &typed, TYPED), &asked, 0)?;
    expect_said(&rt, alloc, (&words, &typed, SEEN), &[], 0)?;
    expect_said(&rt, alloc, (&words, &typed, TOLD), &[], 0)?;
    // A value that isn't printable, or too long.
    let long = "x".repeat(alloc, 1025)?;
    let cases: [(&str, &str, u8); 2] = [
        ("\x07\n", "shamir: 41 passphrase byte 1 not printable\n", 1),
        (&long, "shamir: -: the value has more than 1024 bytes\n", 2),
    ];
    for (input, told, status) in cases {
        let asked = [PASSPHRASE_ASKED, told];
        expect_said(&rt, alloc, (&words, input, TYPED), &asked, status)?;
    }
    Ok(())
}

// The file `/dev/tty` has the line of a passphrase, and a line behind it, which isn't read.
#[test]
fn asks_for_values_at_the_terminal(rt: HostRuntime) -> Result<(), Fail> {
    let alloc = rt.alloc();
    let recover = ["shamir", "recover", "--passphrase-file=/dev/tty"];
    let create = [
        "shamir",
        "create",
        "1of1",
        "--master-secret-file=/dev/tty",
        "--passphrase-file=/dev/tty",
    ];
    let no_digits = "shamir: master secret isn't hexadecimal\n";
    let cases: [(&[&str], &[&str], &[&str], u8); 2] = [
        (&recover, &[PASSPHRASE_ASKED], &[], 0),
        (&create, &[SECRET_ASKED, PASSPHRASE_ASKED], &[no_digits], 2),
    ];
    for (words, asked, told, status) in cases {
        for terminals in [SEEN, TOLD, NO_TERMINAL] {
            let mut wanted = Vec::new(alloc);
            if terminals != NO_TERMINAL {
                wanted.extend_from_slice(asked)?;
            }
            wanted.extend_from_slice(told)?;
            expect_said(&rt, alloc, (words, ONE_OF_ONE, terminals), &wanted, status)?;
        }
    }
    let asked = [PASSPHRASE_ASKED, TYPING];
    expect_said(&rt, alloc, (&recover, ONE_OF_ONE, TYPED), &asked, 0)
}

#[test]
fn keeps_its_answer_where_nothing_can_be_said(rt: HostRuntime) -> Result<(), Fail> {
    let alloc = rt.alloc();
    let typed = lines(alloc, &["", ONE_OF_ONE])?;
    let words = ["shamir", "recover", "--passphrase-file=-"];
    let bare = ["shamir", "drill"];
    for (words, input, calls) in [
        (words.as_slice(), typed.as_str(), 2),
        (&bare, ONE_OF_ONE, 3),
    ] {
        let mut all = Vec::new(alloc);
        let run_of = (words, input, TYPED);
        let told = run(alloc, run_of, &mut all, &mut Screen::new(alloc));
        equal(&rt, (told, all.is_empty()), (0, false));
        // The first line fails, and the lines behind it are said. Or no line is taken.
        for (mut errors, said) in [(Screen::after(1, alloc), calls), (Screen::Full, 0)] {
            let mut output = Vec::new(alloc);
            let status = run(alloc, run_of, &mut output, &mut errors);
            equal(&rt, (status, errors.calls()), (0, said));
            equal(&rt, output.as_slice(), all.as_slice());
        }
    }
    Ok(())
}

#[test]
fn says_a_name_up_to_the_longest_of_a_path(rt: HostRuntime) -> Result<(), Fail> {
    let alloc = rt.alloc();
    // The system takes paths of at most 4,095 bytes. A longer name is cut to as many, of which the last three are dots.
    for (length, told, dots) in [(4095, 4095, ""), (4096, 4092, "...")] {
        let name = "n".repeat(alloc, length)?;
        let words = ["shamir", "recover", "--passphrase-file", &name];
        let cut = "n".repeat(alloc, told)?;
        let message = format!(in alloc; "shamir: {cut}{dots}: entity not found\n")?;
        expect_said(
            &rt,
            alloc,
            (&words, "", NO_TERMINAL),
            &[message.as_str()],
            3,
        )?;
    }
    Ok(())
}

#[test]
fn says_a_refusal_in_one_write(rt: HostRuntime) -> Result<(), Fail> {
    let alloc = rt.alloc();
    let bad = lines(alloc, &[ONE_OF_ONE_BAD_CHECKSUM])?;
    let two = lines(alloc, &[TWO_NEEDED_MEMBER_0, ONE_OF_ONE])?;
    let long = "x".repeat(alloc, 5000)?;
    let named = ["shamir", "recover", "--passphrase-file", &long];
    let cases: [(&[&str], &str); 7] = [
        (&["shamir", "reveal"], ""),
        (&["shamir", "create", "1of1"], ""),
        (&["shamir", "create", "1of1", "--master-secret=0"], ""),
        (&["shamir", "show"], &bad),
        (&["shamir", "recover"], &two),
        (&["shamir", "recover", "--passphrase-file", "g"], ""),
        (&named, ""),
    ];
    for (words, input) in cases {
        let (mut errors, mut output) = (Screen::new(alloc), Vec::new(alloc));
        let run_of = (words, input, NO_TERMINAL);
        let status = run(alloc, run_of, &mut output, &mut errors);
        holds_for(&rt, words, status != 0 && errors.calls() == 1);
        holds_for(&rt, words, errors.text().ends_with(b"\n"));
    }
    Ok(())
}
