//! The command line.

use crate::expect::{equal, holds};
use s39_command::{Call, Job, NoJob, Texts, read_words};
use s39_fixtures::devices::Full;
use s39_fixtures::{ONE_OF_ONE, WRITE_FAILED_LINE, expect_told, run_on};
use s39_input::SecretForm;
use std::alloc::Global;
use std::process::Abort;
use std::test::Fail;

/// No texts.
pub(crate) const NONE: Texts = Texts {
    secret: None,
    passphrase: None,
};

/// The text of a secret.
pub(crate) fn secret(text: &str) -> Texts {
    Texts {
        secret: Some(text),
        passphrase: None,
    }
}

/// The text of a passphrase.
pub(crate) fn passphrase(text: &str) -> Texts {
    Texts {
        secret: None,
        passphrase: Some(text),
    }
}

/// The call of this job with these texts, and with no file.
pub(crate) fn call<'a>(job: Job<'a>, given: Texts<'a>) -> Call<'a> {
    Call {
        job,
        given,
        files: NONE,
    }
}

/// Each of the command lines gives this call.
pub(crate) fn expect_calls(rt: &impl Abort, alloc: Global, cases: &[(&[&str], Call)]) {
    for (words, call) in cases {
        equal(rt, read_words(alloc, words).ok(), Some(*call));
    }
}

/// Each of the command lines is refused, with a message and no output.
pub(crate) fn expect_refusals(rt: &impl Abort, alloc: Global, cases: &[&[&str]]) {
    for words in cases {
        holds(
            rt,
            matches!(read_words(alloc, words), Err(NoJob::Refused(_))),
        );
        let run = run_on(alloc, words, ONE_OF_ONE.as_bytes());
        let says_error = run.told.as_slice().starts_with(b"error: ");
        equal(
            rt,
            (run.status, run.written.len(), says_error),
            (2, 0, true),
        );
    }
}

#[test]
fn reads_show_and_recover(rt: HostRuntime) {
    let digits = Job::Recover {
        form: SecretForm::Digits,
        expected: None,
    };
    let of_fingerprint = Job::Recover {
        form: SecretForm::Fingerprint,
        expected: None,
    };
    let of_expected = Job::Recover {
        form: SecretForm::Digits,
        expected: Some("DF41d8fe"),
    };
    let of_both = Job::Recover {
        form: SecretForm::Fingerprint,
        expected: Some(""),
    };
    let none = call(digits, NONE);
    let empty = call(digits, passphrase(""));
    let trezor = call(digits, passphrase("TREZOR"));
    let dashed = call(digits, passphrase("-x"));
    let fingerprint = call(of_fingerprint, passphrase("TREZOR"));
    let expecting = call(of_expected, NONE);
    let both = call(of_both, NONE);
    let cases: [(&[&str], Call); 12] = [
        (&["shamir", "show"], call(Job::Show, NONE)),
        (&["shamir", "recover"], none),
        (&["shamir", "recover", "--passphrase", "TREZOR"], trezor),
        (&["shamir", "recover", "--passphrase=TREZOR"], trezor),
        (&["shamir", "recover", "--passphrase="], empty),
        (&["shamir", "recover", "--passphrase", ""], empty),
        (&["shamir", "recover", "--passphrase=-x"], dashed),
        (
            &["shamir", "recover", "--fingerprint", "--passphrase=TREZOR"],
            fingerprint,
        ),
        (
            &["shamir", "recover", "--passphrase=TREZOR", "--fingerprint"],
            fingerprint,
        ),
        (&["shamir", "recover", "--expect", "DF41d8fe"], expecting),
        (&["shamir", "recover", "--expect=DF41d8fe"], expecting),
        (&["shamir", "recover", "--fingerprint", "--expect="], both),
    ];
    expect_calls(&rt, rt.alloc(), &cases);
    let refused: [&[&str]; 15] = [
        &["shamir", "recover", "--expect"],
        &[
            "shamir",
            "recover",
            "--expect=00000000",
            "--expect=00000000",
        ],
        &["shamir", "status", "--expect=00000000"],
        &["shamir", "show", "--fingerprint"],
        &["shamir", "recover", "--fingerprint=df41d8fe"],
        &["shamir", "recover", "--fingerprint", "--fingerprint"],
        &["shamir", "show", "--verbose"],
        &["shamir", "show", "file"],
        &["shamir", "show", "--passphrase", "TREZOR"],
        &["shamir", "--passphrase", "TREZOR", "recover"],
        &["shamir", "recover", "file"],
        &["shamir", "recover", "--extendable"],
        &["shamir", "recover", "--passphrase"],
        &[
            "shamir",
            "recover",
            "--passphrase",
            "TREZOR",
            "--passphrase",
            "TREZOR",
        ],
        &["shamir", "reveal"],
    ];
    expect_refusals(&rt, rt.alloc(), &refused);
}

const FULL: [&str; 10] = [
    "shamir",
    "create",
    "--extendable",
    "--exponent",
    "15",
    "2of3",
    "--passphrase",
    "TREZOR",
    "--master-secret",
    "zz",
];

#[test]
fn reads_create(rt: HostRuntime) {
    let job = Job::Create {
        plan: "1of1",
        exponent: 0,
        extendable: false,
    };
    let plain = call(job, secret("00"));
    let full = Call {
        job: Job::Create {
            plan: "2of3",
            exponent: 15,
            extendable: true,
        },
        given: Texts {
            secret: Some("zz"),
            passphrase: Some("TREZOR"),
        },
        files: NONE,
    };
    let cases: [(&[&str], Call); 3] = [
        (
            &["shamir", "create", "1of1", "--master-secret", "00"],
            plain,
        ),
        (
            &[
                "shamir",
                "create",
                "--exponent=0",
                "--master-secret=00",
                "1of1",
            ],
            plain,
        ),
        (&FULL, full),
    ];
    expect_calls(&rt, rt.alloc(), &cases);
}

#[test]
fn refuses_words_of_create(rt: HostRuntime) {
    let refused: [&[&str]; 6] = [
        &["shamir", "create"],
        &["shamir", "create", "--master-secret", "00"],
        &["shamir", "create", "1of1", "1of1", "--master-secret", "00"],
        &[
            "shamir",
            "create",
            "1of1",
            "--master-secret",
            "00",
            "--exponent",
            "16",
        ],
        &[
            "shamir",
            "create",
            "1of1",
            "--master-secret",
            "00",
            "--exponent=-1",
        ],
        &[
            "shamir",
            "create",
            "1of1",
            "--master-secret",
            "00",
            "--extendable=true",
        ],
    ];
    expect_refusals(&rt, rt.alloc(), &refused);
}

#[test]
fn reads_drill(rt: HostRuntime) {
    let first = Job::Drill {
        after: None,
        limit: 1000,
        form: SecretForm::Digits,
        expected: None,
    };
    let rest = Job::Drill {
        after: Some("0.0+1.0"),
        limit: 4_294_967_295,
        form: SecretForm::Fingerprint,
        expected: None,
    };
    let expecting = Job::Drill {
        after: Some("0.0"),
        limit: 1000,
        form: SecretForm::Digits,
        expected: Some("df41d8f"),
    };
    let cases: [(&[&str], Call); 3] = [
        (
            &["shamir", "drill", "--after=0.0", "--expect", "df41d8f"],
            call(expecting, NONE),
        ),
        (&["shamir", "drill"], call(first, NONE)),
        (
            &[
                "shamir",
                "drill",
                "--limit=4294967295",
                "--after",
                "0.0+1.0",
                "--fingerprint",
                "--passphrase",
                "TREZOR",
            ],
            call(rest, passphrase("TREZOR")),
        ),
    ];
    expect_calls(&rt, rt.alloc(), &cases);
    let refused: [&[&str]; 3] = [
        &["shamir", "drill", "--limit", "0"],
        &["shamir", "drill", "--limit", "4294967296"],
        &["shamir", "drill", "--after"],
    ];
    expect_refusals(&rt, rt.alloc(), &refused);
}

#[test]
fn reads_status_reissue_and_repair(rt: HostRuntime) {
    let lost = Job::Reissue {
        plan: "2of3",
        names: "0.1+0.2",
    };
    let empty = Job::Reissue {
        plan: "",
        names: "",
    };
    let cases: [(&[&str], Call); 4] = [
        (&["shamir", "status"], call(Job::Status, NONE)),
        (&["shamir", "reissue", "2of3", "0.1+0.2"], call(lost, NONE)),
        (&["shamir", "reissue", "", ""], call(empty, NONE)),
        (&["shamir", "repair"], call(Job::Repair, NONE)),
    ];
    expect_calls(&rt, rt.alloc(), &cases);
    let refused: [&[&str]; 11] = [
        &["shamir", "status", "file"],
        &["shamir", "status", "--passphrase", "TREZOR"],
        &["shamir", "repair", "file"],
        &["shamir", "repair", "--passphrase", "TREZOR"],
        &["shamir", "repair", "--fingerprint"],
        &["shamir", "repairs"],
        &["shamir", "reissue"],
        &["shamir", "reissue", "2of3"],
        &["shamir", "reissue", "2of3", "0.1", "0.2"],
        &["shamir", "reissue", "2of3", "-0.1"],
        &["shamir", "reissue", "2of3", "0.1", "--passphrase=x"],
    ];
    expect_refusals(&rt, rt.alloc(), &refused);
}

#[test]
fn answers_without_a_command(rt: HostRuntime) -> Result<(), Fail> {
    let alloc = rt.alloc();
    holds(
        &rt,
        matches!(read_words(alloc, &["shamir"]), Err(NoJob::Refused(_))),
    );
    holds(
        &rt,
        matches!(read_words(alloc, &["shamir", "help"]), Err(NoJob::Help(_))),
    );
    expect_refusals(&rt, alloc, &[&["shamir", "show", "help"]]);
    let help = ["shamir", "--help"];
    holds(&rt, matches!(read_words(alloc, &help), Err(NoJob::Help(_))));
    let run = run_on(alloc, &help, b"");
    equal(
        &rt,
        (run.status, run.written.is_empty(), run.told.len()),
        (0, false, 0),
    );
    expect_told(&help, b"".as_slice(), Full, alloc, (WRITE_FAILED_LINE, 3))
}
