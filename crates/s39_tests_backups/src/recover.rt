//! The worked examples of `recover`, from the command line to the secret or the message, and the status.

use crate::expect::{equal, holds};
use s39_fixtures::{
    EXTENDABLE_ONE_OF_ONE, LONGEST_ONE_OF_ONE, LONGEST_ONE_OF_ONE_SECRET, ONE_OF_ONE,
    ONE_OF_ONE_256_BITS, ONE_OF_ONE_EXTENDABLE_MEMBER_1, ONE_OF_ONE_SECRET, RECOVER,
    TWO_NEEDED_MEMBER_0, TWO_NEEDED_MEMBER_2, expect_bytes, expect_run, forged, run_on,
};
use std::test::Fail;

#[test]
fn recovers_secrets(rt: HostRuntime) -> Result<(), Fail> {
    let alloc = rt.alloc();
    let two = format!(in alloc;
        "{TWO_NEEDED_MEMBER_2}\n{TWO_NEEDED_MEMBER_0}\n{TWO_NEEDED_MEMBER_2}\n"
    )?;
    for (input, secret) in [
        (ONE_OF_ONE, ONE_OF_ONE_SECRET),
        (
            ONE_OF_ONE_256_BITS,
            "989baf9dcaad5b10ca33dfd8cc75e42477025dce88ae83e75a230086a0e00e92\n",
        ),
        (two.as_str(), "b43ceb7e57a0ea8766221624d01b0864\n"),
        (LONGEST_ONE_OF_ONE, LONGEST_ONE_OF_ONE_SECRET),
    ] {
        expect_run(&RECOVER, input, alloc, (secret, "", 0))?;
    }
    Ok(())
}

#[test]
fn recovers_from_an_extendable_mnemonic(rt: HostRuntime) -> Result<(), Fail> {
    let secret = "1679b4516e0ee5954351d288a838f45e\n";
    let alloc = rt.alloc();
    expect_run(&RECOVER, EXTENDABLE_ONE_OF_ONE, alloc, (secret, "", 0))
}

#[test]
fn tells_fingerprints(rt: HostRuntime) -> Result<(), Fail> {
    let alloc = rt.alloc();
    let words = [
        "shamir",
        "recover",
        "--fingerprint",
        "--passphrase",
        "TREZOR",
    ];
    expect_run(&words, ONE_OF_ONE, alloc, ("df41d8fe\n", "", 0))?;
    expect_run(&words, ONE_OF_ONE_256_BITS, alloc, ("c1aed5fb\n", "", 0))
}

// Python's hmac computes the fingerprints.
#[test]
fn compares_with_an_expected_fingerprint(rt: HostRuntime) -> Result<(), Fail> {
    let alloc = rt.alloc();
    let long = "989baf9dcaad5b10ca33dfd8cc75e42477025dce88ae83e75a230086a0e00e92\n";
    let other = "shamir: 52 other secret\n";
    let bad = "shamir: 44 bad fingerprint\n";
    let cases = [
        ("df41d8fe", ONE_OF_ONE, (ONE_OF_ONE_SECRET, "", 0)),
        ("DF41D8FE", ONE_OF_ONE, (ONE_OF_ONE_SECRET, "", 0)),
        ("dF41d8Fe", ONE_OF_ONE, (ONE_OF_ONE_SECRET, "", 0)),
        ("c1aed5fb", ONE_OF_ONE_256_BITS, (long, "", 0)),
        ("c1aed5fb", ONE_OF_ONE, ("", other, 1)),
        ("df41d8ff", ONE_OF_ONE, ("", other, 1)),
        ("ef41d8fe", ONE_OF_ONE, ("", other, 1)),
        ("00000000", ONE_OF_ONE, ("", other, 1)),
        ("df41d8f", ONE_OF_ONE, ("", bad, 1)),
        ("df41d8fe0", ONE_OF_ONE, ("", bad, 1)),
        ("df41d8fe00", ONE_OF_ONE, ("", bad, 1)),
        ("df41d8fg", ONE_OF_ONE, ("", bad, 1)),
        ("", ONE_OF_ONE, ("", bad, 1)),
    ];
    for (digits, input, wanted) in cases {
        let expect = format!(in alloc; "--expect={digits}")?;
        let words = ["shamir", "recover", expect.as_str(), "--passphrase=TREZOR"];
        expect_run(&words, input, alloc, wanted)?;
    }
    Ok(())
}

#[test]
fn compares_and_tells_fingerprints(rt: HostRuntime) -> Result<(), Fail> {
    let alloc = rt.alloc();
    let other = ("", "shamir: 52 other secret\n", 1);
    let cases: [(&[&str], (&str, &str, u8)); 3] = [
        (
            &[
                "shamir",
                "recover",
                "--fingerprint",
                "--expect=DF41D8FE",
                "--passphrase=TREZOR",
            ],
            ("df41d8fe\n", "", 0),
        ),
        (
            &["shamir", "recover", "--fingerprint", "--expect=df41d8fe"],
            other,
        ),
        // The passphrase is forgotten.
        (&["shamir", "recover", "--expect=df41d8fe"], other),
    ];
    for (words, wanted) in cases {
        expect_run(words, ONE_OF_ONE, alloc, wanted)?;
    }
    Ok(())
}

#[test]
fn names_why_there_is_no_secret(rt: HostRuntime) -> Result<(), Fail> {
    let alloc = rt.alloc();
    let one = format!(in alloc; "{TWO_NEEDED_MEMBER_2}\n{TWO_NEEDED_MEMBER_2}")?;
    let other = format!(in alloc; "{ONE_OF_ONE}\n{TWO_NEEDED_MEMBER_2}\n")?;
    let flags = format!(in alloc; "{ONE_OF_ONE}\n{ONE_OF_ONE_EXTENDABLE_MEMBER_1}\n")?;
    let identifiers = format!(in alloc; "{ONE_OF_ONE}\n{EXTENDABLE_ONE_OF_ONE}\n")?;
    for (input, message) in [
        ("", "shamir: 29 no shares\n"),
        ("# comment", "shamir: 29 no shares\n"),
        (one.as_str(), "shamir: 30 incomplete: 0 of 1 groups\n"),
        (other.as_str(), "shamir: line 2: 21 other identifier\n"),
        (flags.as_str(), "shamir: line 2: 22 other extendable flag\n"),
        (
            identifiers.as_str(),
            "shamir: line 2: 21 other identifier\n",
        ),
    ] {
        expect_run(&RECOVER, input, alloc, ("", message, 1))?;
    }
    Ok(())
}

#[test]
fn refuses_a_digest_that_differs(rt: HostRuntime) -> Result<(), Fail> {
    let alloc = rt.alloc();
    let mut input = Vec::new(alloc);
    input.extend_from_slice(forged(TWO_NEEDED_MEMBER_0, 0xFF)?.as_slice())?;
    input.push(b'\n')?;
    input.extend_from_slice(forged(TWO_NEEDED_MEMBER_2, 0xFD)?.as_slice())?;
    let mismatch = "shamir: 51 digest mismatch in group 0\n";
    expect_bytes(&RECOVER, input.as_slice(), alloc, ("", mismatch, 1))
}

#[test]
fn takes_a_passphrase(rt: HostRuntime) -> Result<(), Fail> {
    let alloc = rt.alloc();
    let unprintable = ["shamir", "recover", "--passphrase", "a\x07"];
    let message = "shamir: 41 passphrase byte 2 not printable\n";
    expect_run(&unprintable, ONE_OF_ONE, alloc, ("", message, 1))?;
    for words in [
        ["shamir", "recover", "--passphrase", "trezor"].as_slice(),
        ["shamir", "recover"].as_slice(),
    ] {
        let other = run_on(alloc, words, ONE_OF_ONE.as_bytes());
        equal(&rt, (other.status, other.told.is_empty()), (0, true));
        equal(&rt, other.written.len(), ONE_OF_ONE_SECRET.len());
        holds(
            &rt,
            other.written.as_slice() != ONE_OF_ONE_SECRET.as_bytes(),
        );
    }
    Ok(())
}
