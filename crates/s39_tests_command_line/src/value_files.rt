//! The files of values in the words of a command line.

use crate::command_line::{NONE, expect_calls, expect_refusals, passphrase, secret};
use crate::expect::equal;
use s39_cli::{Person, program};
use s39_command::{BadValues, Call, Job, NoJob, Texts, read_words};
use s39_fixtures::shelves::Halted;
use s39_fixtures::{
    NO_TERMINAL, ONE_OF_ONE, ONE_OF_ONE_BAD_CHECKSUM, ONE_OF_ONE_SECRET, expect_over, lines, run_on,
};
use s39_input::SecretForm;
use std::alloc::Global;
use std::io::ErrorKind;
use std::process::Abort;
use std::test::Fail;

/// The call of this job with these files, and with no text in the words.
fn from<'a>(files: Texts<'a>, job: Job<'a>) -> Call<'a> {
    Call {
        job,
        given: NONE,
        files,
    }
}

/// What is wrong with the values of a command line that is refused for them.
fn fault_of(alloc: Global, words: &[&str]) -> Option<BadValues> {
    match read_words(alloc, words) {
        Err(NoJob::Values(bad)) => Some(bad),
        _ => None,
    }
}

/// Each of the command lines is refused for this fault of its values, and nothing is written.
pub(crate) fn expect_bad_values(rt: &impl Abort, alloc: Global, cases: &[(&[&str], BadValues)]) {
    for (words, bad) in cases {
        equal(rt, fault_of(alloc, words), Some(*bad));
        let run = run_on(alloc, words, ONE_OF_ONE.as_bytes());
        equal(rt, (run.status, run.written.len()), (2, 0));
    }
}

#[test]
fn reads_files_of_create(rt: HostRuntime) {
    let job = Job::Create {
        plan: "1of1",
        exponent: 0,
        extendable: false,
    };
    let digits = Call {
        job,
        given: secret("00"),
        files: passphrase("p"),
    };
    let phrase = Call {
        job,
        given: passphrase("-"),
        files: secret("-"),
    };
    let both = Texts {
        secret: Some("s"),
        passphrase: Some("p"),
    };
    let cases: [(&[&str], Call); 8] = [
        (
            &["shamir", "create", "1of1", "--master-secret-file", "s.txt"],
            from(secret("s.txt"), job),
        ),
        (
            &["shamir", "create", "1of1", "--master-secret-file", "-"],
            from(secret("-"), job),
        ),
        (
            &["shamir", "create", "1of1", "--master-secret-file=-"],
            from(secret("-"), job),
        ),
        (
            &["shamir", "create", "1of1", "--master-secret-file=-x"],
            from(secret("-x"), job),
        ),
        (
            &["shamir", "create", "1of1", "--master-secret-file="],
            from(secret(""), job),
        ),
        (
            &[
                "shamir",
                "create",
                "--passphrase-file",
                "p",
                "1of1",
                "--master-secret=00",
            ],
            digits,
        ),
        (
            &[
                "shamir",
                "create",
                "--passphrase-file=p",
                "--master-secret-file=s",
                "1of1",
            ],
            from(both, job),
        ),
        (
            &[
                "shamir",
                "create",
                "1of1",
                "--passphrase=-",
                "--master-secret-file=-",
            ],
            phrase,
        ),
    ];
    expect_calls(&rt, rt.alloc(), &cases);
}

#[test]
fn reads_files_of_recover_and_drill(rt: HostRuntime) {
    let digits = Job::Recover {
        form: SecretForm::Digits,
        expected: None,
    };
    let fingerprint = Job::Recover {
        form: SecretForm::Fingerprint,
        expected: None,
    };
    let drill = Job::Drill {
        after: Some("0.0"),
        limit: 2,
        form: SecretForm::Digits,
        expected: None,
    };
    let cases: [(&[&str], Call); 5] = [
        (
            &["shamir", "recover", "--passphrase-file=x"],
            from(passphrase("x"), digits),
        ),
        (
            &["shamir", "recover", "--passphrase-file="],
            from(passphrase(""), digits),
        ),
        (
            &[
                "shamir",
                "recover",
                "--passphrase-file",
                "-",
                "--fingerprint",
            ],
            from(passphrase("-"), fingerprint),
        ),
        (
            &["shamir", "recover", "--passphrase-file=-x"],
            from(passphrase("-x"), digits),
        ),
        (
            &[
                "shamir",
                "drill",
                "--after=0.0",
                "--passphrase-file=--",
                "--limit=2",
            ],
            from(passphrase("--"), drill),
        ),
    ];
    expect_calls(&rt, rt.alloc(), &cases);
}

#[test]
fn refuses_words_of_files(rt: HostRuntime) {
    let refused: [&[&str]; 12] = [
        &["shamir", "show", "--passphrase-file=x"],
        &["shamir", "status", "--passphrase-file=x"],
        &["shamir", "reissue", "2of3", "0.1", "--passphrase-file=x"],
        &["shamir", "reissue", "2of3", "0.1", "--master-secret-file=x"],
        &["shamir", "recover", "--master-secret-file=x"],
        &["shamir", "drill", "--master-secret-file=x"],
        &["shamir", "create", "--master-secret-file=x"],
        &["shamir", "create", "1of1", "--master-secret-file"],
        &["shamir", "recover", "--passphrase-file"],
        &["shamir", "recover", "--passphrase-file", "-x"],
        &["shamir", "drill", "--passphrase-file", "--"],
        &[
            "shamir",
            "recover",
            "--passphrase-file=x",
            "--passphrase-file=x",
        ],
    ];
    expect_refusals(&rt, rt.alloc(), &refused);
}

#[test]
fn refuses_values_of_create(rt: HostRuntime) {
    let cases: [(&[&str], BadValues); 7] = [
        (&["shamir", "create", "1of1"], BadValues::NoSecret),
        (
            &[
                "shamir",
                "create",
                "1of1",
                "--passphrase=x",
                "--passphrase-file=x",
            ],
            BadValues::NoSecret,
        ),
        (
            &[
                "shamir",
                "create",
                "1of1",
                "--master-secret=00",
                "--master-secret-file=x",
            ],
            BadValues::TwoSecrets,
        ),
        (
            &[
                "shamir",
                "create",
                "--master-secret-file=",
                "--master-secret=",
                "1of1",
            ],
            BadValues::TwoSecrets,
        ),
        (
            &[
                "shamir",
                "create",
                "--passphrase=x",
                "--passphrase-file=x",
                "--master-secret=00",
                "--master-secret-file=x",
                "1of1",
            ],
            BadValues::TwoSecrets,
        ),
        (
            &[
                "shamir",
                "create",
                "1of1",
                "--master-secret=00",
                "--passphrase=",
                "--passphrase-file=x",
            ],
            BadValues::TwoPassphrases,
        ),
        (
            &[
                "shamir",
                "create",
                "1of1",
                "--master-secret-file=-",
                "--passphrase-file=-",
                "--passphrase=x",
            ],
            BadValues::TwoPassphrases,
        ),
    ];
    expect_bad_values(&rt, rt.alloc(), &cases);
}

#[test]
fn refuses_two_passphrases(rt: HostRuntime) {
    let cases: [(&[&str], BadValues); 3] = [
        (
            &["shamir", "recover", "--passphrase=x", "--passphrase-file=x"],
            BadValues::TwoPassphrases,
        ),
        (
            &[
                "shamir",
                "recover",
                "--passphrase-file=",
                "--passphrase=",
                "--fingerprint",
            ],
            BadValues::TwoPassphrases,
        ),
        (
            &["shamir", "drill", "--passphrase-file=-", "--passphrase="],
            BadValues::TwoPassphrases,
        ),
    ];
    expect_bad_values(&rt, rt.alloc(), &cases);
}

// Files that hold a passphrase, and what a backup that was created with `TREZOR` recovers with it, as tools/plain.py computes it.
#[test]
fn reads_a_passphrase_from_a_file(rt: HostRuntime) -> Result<(), Fail> {
    let empty = "3972a9318cf16a33ee9b0564c5a0bd0b\n";
    let of_1024 = "8ffb749d1b4a83fc415e5394cd4a0ac6\n";
    let unprintable = "shamir: 41 passphrase byte 7 not printable\n";
    let too_long = "shamir: file: the value has more than 1024 bytes\n";
    let mnemonic = "shamir: file: this is a mnemonic, and neither a secret nor a passphrase\n";
    let cases: [(&[u8], (&str, &str, u8)); 12] = [
        (b"TREZOR", (ONE_OF_ONE_SECRET, "", 0)),
        (b"TREZOR\n", (ONE_OF_ONE_SECRET, "", 0)),
        (b"TREZOR\r\n", (ONE_OF_ONE_SECRET, "", 0)),
        (b"TREZOR\r", ("", unprintable, 1)),
        (b"TREZOR\n\n", ("", unprintable, 1)),
        (b"", (empty, "", 0)),
        (b"\n", (empty, "", 0)),
        (&[b'x'; 1024], (of_1024, "", 0)),
        (&[b'x'; 1025], ("", too_long, 2)),
        (&[b'\n'; 1026], ("", too_long, 2)),
        (&[b'x'; 4000], ("", too_long, 2)),
        (ONE_OF_ONE.as_bytes(), ("", mnemonic, 2)),
    ];
    let words = ["shamir", "recover", "--passphrase-file=file"];
    for (bytes, wanted) in cases {
        let files: [(&str, &[u8]); 2] = [("other", b"SATOSHI"), ("file", bytes)];
        expect_over(&files, &words, ONE_OF_ONE.as_bytes(), rt.alloc(), wanted)?;
    }
    Ok(())
}

// The first line of mnemonics isn't taken for the passphrase, nor for the secret of `create`. One that isn't sound is.
#[test]
fn refuses_a_mnemonic_as_a_value(rt: HostRuntime) -> Result<(), Fail> {
    let alloc = rt.alloc();
    let mnemonic = "shamir: -: this is a mnemonic, and neither a secret nor a passphrase\n";
    let two = lines(alloc, &[ONE_OF_ONE, ONE_OF_ONE])?;
    let (none, unhexadecimal) = (
        "shamir: 29 no shares\n",
        "shamir: master secret isn't hexadecimal\n",
    );
    let secret = "--master-secret-file=-";
    let cases: [(&[&str], &str, (&str, &str, u8)); 5] = [
        (
            &["shamir", "recover", "--passphrase-file=-"],
            &two,
            ("", mnemonic, 2),
        ),
        (
            &["shamir", "drill", "--passphrase-file=-"],
            &two,
            ("", mnemonic, 2),
        ),
        (
            &["shamir", "create", "x", secret],
            ONE_OF_ONE,
            ("", mnemonic, 2),
        ),
        (
            &["shamir", "create", "x", secret],
            ONE_OF_ONE_BAD_CHECKSUM,
            ("", unhexadecimal, 2),
        ),
        (
            &["shamir", "recover", "--passphrase-file=-"],
            ONE_OF_ONE_BAD_CHECKSUM,
            ("", none, 1),
        ),
    ];
    for (words, input, wanted) in cases {
        expect_over(&[], words, input.as_bytes(), alloc, wanted)?;
    }
    Ok(())
}

const CREATED: &str =
    "salt away academic academic detect device predator surprise gums location lift answer traffic hospital disease alpha leaves thank course frequent\n";

const CREATED_WITH_A_PASSPHRASE: &str =
    "salt away academic academic dominant item company squeeze friar husband nuclear phantom physics rumor fatal aunt fumes frost patent change\n";

#[test]
fn reads_values_of_create(rt: HostRuntime) -> Result<(), Fail> {
    let files: [(&str, &[u8]); 2] = [
        ("secret", b"00112233445566778899aabbccddeeff\n"),
        ("word", b"TREZOR\n"),
    ];
    let not_found = "shamir: none: entity not found\n";
    let cases: [(&str, &str, &[u8], (&str, &str, u8)); 6] = [
        (
            "--master-secret-file=secret",
            "--passphrase=",
            b"ab",
            (CREATED, "", 0),
        ),
        (
            "--master-secret-file=secret",
            "--passphrase-file=word",
            b"ab",
            (CREATED_WITH_A_PASSPHRASE, "", 0),
        ),
        (
            "--master-secret-file=-",
            "--passphrase-file=word",
            b"00112233445566778899aabbccddeeff\nab",
            (CREATED_WITH_A_PASSPHRASE, "", 0),
        ),
        (
            "--passphrase-file=-",
            "--master-secret-file=-",
            b"00112233445566778899aabbccddeeff\r\nTREZOR\nab",
            (CREATED_WITH_A_PASSPHRASE, "", 0),
        ),
        (
            "--master-secret-file=none",
            "--passphrase-file=word",
            b"ab",
            ("", not_found, 3),
        ),
        (
            "--master-secret-file=secret",
            "--passphrase-file=none",
            b"ab",
            ("", not_found, 3),
        ),
    ];
    for (first, second, input, wanted) in cases {
        let words = ["shamir", "create", first, second, "1of1"];
        expect_over(&files, &words, input, rt.alloc(), wanted)?;
    }
    Ok(())
}

#[test]
fn tries_only_an_interrupted_read_of_a_file_again(rt: HostRuntime) {
    let alloc = rt.alloc();
    let cases = [
        (ErrorKind::Interrupted, 1, 0, ONE_OF_ONE_SECRET),
        (ErrorKind::Interrupted, 1000, 0, ONE_OF_ONE_SECRET),
        (ErrorKind::WouldBlock, 1, 3, ""),
        (ErrorKind::TimedOut, 1, 3, ""),
        (ErrorKind::BrokenPipe, 1, 3, ""),
        (ErrorKind::Other, 1, 3, ""),
    ];
    for (kind, failures, wanted, output) in cases {
        let shelf = Halted {
            alloc,
            kind,
            failures,
            bytes: b"TREZOR\n",
        };
        let mut written = Vec::new(alloc);
        let status = program(
            &shelf,
            alloc,
            &["shamir", "recover", "--passphrase-file", "f"],
            ONE_OF_ONE.as_bytes(),
            &mut written,
            &mut Person::new(Vec::new(alloc), NO_TERMINAL),
        )
        .status();
        equal(&rt, status, wanted);
        equal(&rt, written.as_slice(), output.as_bytes());
    }
}
