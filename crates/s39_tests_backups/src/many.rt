//! A backup with an exponent above 3, and a drill of more quorums than it lists by itself.

use crate::expect::{equal, holds};
use s39_fixtures::{SECRET, run_on};
use sha2::{Digest, Sha256};
use std::test::Fail;

const CREATE: [&str; 9] = [
    "shamir",
    "create",
    "1/4of16,4of16",
    "--master-secret",
    SECRET,
    "--passphrase",
    "TREZOR",
    "--exponent",
    "4",
];

const DRILL: [&str; 6] = [
    "shamir",
    "drill",
    "--passphrase",
    "TREZOR",
    "--limit",
    "5000",
];

/// The SHA-256 of the 32 lines that another program computes from the random bytes 0 to 89.
const LINES_DIGEST: [u8; 32] = [
    0x91, 0x98, 0xDC, 0xF3, 0x0B, 0x9D, 0xC0, 0x34, 0x5A, 0x14, 0x4A, 0x3A, 0xBA, 0x41, 0xCC, 0xCF,
    0x28, 0xAF, 0x4B, 0xAE, 0x67, 0x42, 0x26, 0xEA, 0x94, 0x64, 0x64, 0x26, 0x78, 0x20, 0xFC, 0x90,
];

/// All 3,640 quorums have one encrypted secret, which is decrypted once: to decrypt it for each of them takes ten
/// minutes, and a test has one.
#[test]
fn drills_more_than_a_thousand_quorums(rt: HostRuntime) -> Result<(), Fail> {
    let alloc = rt.alloc();
    let mut random = Vec::new(alloc);
    for byte in 0..90u8 {
        random.push(byte)?;
    }
    let created = run_on(alloc, &CREATE, random.as_slice());
    equal(&rt, (created.status, created.told.is_empty()), (0, true));
    equal(
        &rt,
        Sha256::digest(created.written.as_slice()),
        LINES_DIGEST,
    );
    let drilled = run_on(alloc, &DRILL, created.written.as_slice());
    equal(&rt, (drilled.status, drilled.told.is_empty()), (0, true));
    let written = std::str::from_utf8(drilled.written.as_slice())?;
    let recovered = written
        .lines()
        .filter(|line| line.ends_with(SECRET))
        .count();
    equal(&rt, (recovered, written.lines().count()), (3640, 3641));
    let last = format!(in alloc; "\n1.12+1.13+1.14+1.15 {SECRET}\nend\n")?;
    holds(&rt, written.ends_with(last.as_str()));
    Ok(())
}
