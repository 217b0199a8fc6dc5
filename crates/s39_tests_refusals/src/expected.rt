//! Where a fingerprint is expected and two causes apply at once, the first of their order is answered.

use crate::orders::{
    ONE_OF_GROUP_0, ONE_OF_GROUP_1, UNKNOWN_WORD, UNPRINTABLE, expect_cause, expect_cut,
};
use s39_fixtures::ONE_OF_ONE;
use std::test::Fail;

const BAD_EXPECTED: [&str; 6] = ["shamir", "drill", "--expect", "df41d8f", "--after", "0.00"];

const BAD_EXPECTED_DRILL: [&str; 5] = [
    "shamir",
    "drill",
    "--expect=df41d8f",
    "--passphrase",
    UNPRINTABLE,
];

const BAD_EXPECTED_RECOVER: [&str; 5] = [
    "shamir",
    "recover",
    "--expect=df41d8f",
    "--passphrase",
    UNPRINTABLE,
];

const BAD_FINGERPRINT: &str = "44 bad fingerprint";

// The cursor, the fingerprint, the passphrase, then a line.
#[test]
fn answers_what_is_known_before_a_line(rt: HostRuntime) -> Result<(), Fail> {
    let cases: [(&[&str], &[&str], &str); 5] = [
        (&BAD_EXPECTED, &["ducklin"], "61 bad cursor"),
        (&BAD_EXPECTED_DRILL, &["ducklin"], BAD_FINGERPRINT),
        (&BAD_EXPECTED_RECOVER, &["ducklin"], BAD_FINGERPRINT),
        (&BAD_EXPECTED_RECOVER, &[], BAD_FINGERPRINT),
        (&BAD_EXPECTED_DRILL, &[ONE_OF_GROUP_0], BAD_FINGERPRINT),
    ];
    for (words, input, refusal) in cases {
        expect_cause(rt.alloc(), words, input, refusal)?;
    }
    Ok(())
}

#[test]
fn reads_nothing_where_the_fingerprint_is_bad(rt: HostRuntime) -> Result<(), Fail> {
    let cases: [&[&str]; 2] = [&BAD_EXPECTED_RECOVER, &BAD_EXPECTED_DRILL];
    for words in cases {
        expect_cut(&rt, rt.alloc(), words, ONE_OF_ONE, (BAD_FINGERPRINT, 1, 0))?;
    }
    Ok(())
}

const OTHER: [&str; 4] = ["shamir", "recover", "--expect", "00000000"];

// A line, then what the set lacks, then a digest, and then the secret.
#[test]
fn answers_the_first_cause_of_an_expecting_recovery(rt: HostRuntime) -> Result<(), Fail> {
    let (one_a, one_c) = (ONE_OF_GROUP_0, ONE_OF_GROUP_1);
    let cases: [(&[&str], &str); 5] = [
        (&["ducklin"], UNKNOWN_WORD),
        (&[], "29 no shares"),
        (&[one_a], "30 incomplete: 1 of 2 groups"),
        (&[one_a, one_c], "51 digest mismatch of groups"),
        (&[ONE_OF_ONE], "52 other secret"),
    ];
    for (input, refusal) in cases {
        expect_cause(rt.alloc(), &OTHER, input, refusal)?;
    }
    Ok(())
}
