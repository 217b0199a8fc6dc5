//! The worked examples of `create`, from the command line to the mnemonics or the message, and the status.

use crate::expect::equal;
use crate::expected::{expect_lines, expect_refusal};
use s39_fixtures::{
    EXTENDABLE_ONE_OF_ONE, FIVE, LONGEST_ONE_OF_ONE, LONGEST_ONE_OF_ONE_SECRET, ONE_OF_ONE,
    ONE_OF_ONE_256_BITS, RANDOM, RECOVER, SECRET, SHOW, create, expect_bytes, expect_run, lines,
    run_on,
};
use sha2::{Digest, Sha256};
use std::test::Fail;

#[test]
fn creates_the_vectors(rt: HostRuntime) -> Result<(), Fail> {
    let alloc = rt.alloc();
    let long = "989baf9dcaad5b10ca33dfd8cc75e42477025dce88ae83e75a230086a0e00e92";
    let longest = LONGEST_ONE_OF_ONE_SECRET.trim_end();
    for (secret, random, mnemonic) in [
        (SECRET, [0x1F, 0x09], ONE_OF_ONE),
        (long, [0x71, 0xF4], ONE_OF_ONE_256_BITS),
        (longest, [0x1F, 0x09], LONGEST_ONE_OF_ONE),
    ] {
        let wanted = lines(alloc, &[mnemonic])?;
        let wanted = (wanted.as_str(), "", 0);
        expect_bytes(&create("1of1", secret), &random, alloc, wanted)?;
    }
    let few = "shamir: 43 random bytes: 2 needed\n";
    for random in [[].as_slice(), &[0x1F], &[0x1F, 0x09, 0x00]] {
        expect_bytes(&create("1of1", SECRET), random, alloc, ("", few, 1))?;
    }
    Ok(())
}

#[test]
fn creates_what_each_quorum_recovers(rt: HostRuntime) -> Result<(), Fail> {
    let alloc = rt.alloc();
    let words = create("2/2of3,1of1,1of1", SECRET);
    let wanted = lines(alloc, &FIVE)?;
    expect_bytes(&words, &RANDOM, alloc, (wanted.as_str(), "", 0))?;
    let [a, b, c, d, e] = FIVE;
    let quorums: [&[&str]; 7] = [
        &[a, b, d],
        &[a, b, e],
        &[a, c, d],
        &[a, c, e],
        &[b, c, d],
        &[b, c, e],
        &[d, e],
    ];
    for quorum in quorums {
        expect_lines(alloc, &RECOVER, quorum, &[SECRET])?;
    }
    Ok(())
}

#[test]
fn refuses_plans(rt: HostRuntime) -> Result<(), Fail> {
    let alloc = rt.alloc();
    let cases = [
        ("1of1,1of1", "31 bad plan"),
        ("2/2of3", "32 bad number of groups in plan"),
        ("3of2", "33 bad number of members in plan group 0"),
        ("2/1of1,2of17", "33 bad number of members in plan group 1"),
        ("1of3", "34 one of many in plan group 0"),
        ("2/1of1,1of3", "34 one of many in plan group 1"),
        ("3of5", "43 random bytes: 30 needed"),
        ("1/3of5", "43 random bytes: 30 needed"),
        ("16of16", "43 random bytes: 238 needed"),
    ];
    for (plan, text) in cases {
        expect_refusal(alloc, &create(plan, SECRET), "", text)?;
    }
    Ok(())
}

#[test]
fn refuses_secrets_and_passphrases(rt: HostRuntime) -> Result<(), Fail> {
    let alloc = rt.alloc();
    let no_hex = "shamir: master secret isn't hexadecimal\n";
    for (plan, secret) in [
        ("3of2", "zz"),
        ("1of1", "abc"),
        ("1of1", "bb 4"),
        ("1of3", "é"),
    ] {
        expect_run(&create(plan, secret), "", alloc, ("", no_hex, 2))?;
    }
    let short = &SECRET[..28];
    for (secret, refusal) in [
        (short, "42 secret of 14 bytes"),
        ("", "42 secret of 0 bytes"),
        (
            "00112233445566778899aabbccddeeff00",
            "42 secret of 17 bytes",
        ),
    ] {
        expect_refusal(alloc, &create("1of1", secret), "", refusal)?;
    }
    let unprintable = [
        "shamir",
        "create",
        "1of1",
        "--master-secret",
        short,
        "--passphrase",
        "a\x07",
    ];
    expect_refusal(
        alloc,
        &unprintable,
        "",
        "41 passphrase byte 2 not printable",
    )
}

#[test]
fn creates_extendable_backups(rt: HostRuntime) -> Result<(), Fail> {
    let alloc = rt.alloc();
    let recovered = run_on(alloc, &RECOVER, EXTENDABLE_ONE_OF_ONE.as_bytes());
    equal(&rt, (recovered.status, recovered.written.len()), (0, 33));
    let secret = std::str::from_utf8(recovered.written.as_slice())?.trim_end();
    let words = [
        "shamir",
        "create",
        "1of1",
        "--extendable",
        "--exponent",
        "3",
        "--master-secret",
        secret,
        "--passphrase",
        "TREZOR",
    ];
    let wanted = lines(alloc, &[EXTENDABLE_ONE_OF_ONE])?;
    for random in [[0x71, 0x5B], [0xF1, 0x5B]] {
        expect_bytes(&words, &random, alloc, (wanted.as_str(), "", 0))?;
    }
    let other = run_on(alloc, &words, &[0, 0]);
    equal(&rt, other.status, 0);
    let shown =
        "identifier 0 extendable 1 exponent 3 group 0 group-threshold 1 group-count 1 member 0 member-threshold 1 value 9e8773c7313b11d3bfe219291976433b\n";
    expect_bytes(&SHOW, other.written.as_slice(), alloc, (shown, "", 0))
}

#[test]
fn creates_the_longest_secret(rt: HostRuntime) -> Result<(), Fail> {
    let alloc = rt.alloc();
    let zeros = "00".repeat(alloc, 128)?;
    let words = create("1of1", zeros.as_str());
    let created = run_on(alloc, &words, &[0, 0]);
    let mnemonic = created.written.as_slice();
    let spaces = mnemonic.iter().filter(|byte| **byte == b' ').count();
    equal(&rt, (created.status, spaces), (0, 109));
    let secret = lines(alloc, &[zeros.as_str()])?;
    let wanted = (secret.as_str(), "", 0);
    expect_bytes(&RECOVER, mnemonic, alloc, wanted)
}

pub const MOST: &str =
    "16/16of16,16of16,16of16,16of16,16of16,16of16,16of16,16of16,16of16,16of16,16of16,16of16,16of16,16of16,16of16,16of16";

const MOST_RANDOM_BYTES: u32 = 32_574;

/// The SHA-256 of the 256 lines that another program computes.
const MOST_LINES_DIGEST: [u8; 32] = [
    0x64, 0x0D, 0x62, 0x27, 0x2B, 0x7D, 0xF0, 0xF6, 0x79, 0x83, 0x9C, 0xB0, 0x32, 0x87, 0xDB, 0x80,
    0xCA, 0x42, 0x9E, 0x5E, 0x87, 0xEC, 0x3E, 0xA4, 0xA8, 0x7C, 0x24, 0x75, 0x40, 0xCC, 0xAF, 0xD5,
];

#[test]
fn creates_the_most_mnemonics(rt: HostRuntime) -> Result<(), Fail> {
    let alloc = rt.alloc();
    let zeros = "00".repeat(alloc, 128)?;
    let words = ["shamir", "create", MOST, "--master-secret", zeros.as_str()];
    let mut random = Vec::new(alloc);
    for i in 0..MOST_RANDOM_BYTES {
        random.push(((7 * i + 3) % 256) as u8)?;
    }
    let created = run_on(alloc, &words, random.as_slice());
    equal(&rt, (created.status, created.told.is_empty()), (0, true));
    equal(
        &rt,
        Sha256::digest(created.written.as_slice()),
        MOST_LINES_DIGEST,
    );
    random.pop();
    let message = "shamir: 43 random bytes: 32574 needed\n";
    expect_bytes(&words, random.as_slice(), alloc, ("", message, 1))
}
