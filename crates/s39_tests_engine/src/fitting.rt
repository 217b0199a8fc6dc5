//! Tests of `fit` of `s39_split`: random bytes by which splits have known shares. A plain program in Python computes the values.
use crate::expect::equal;
use s39_kdf::Bytes;
use s39_split::{fit, split};
use std::test::Fail;

/// The key of the digest.
const KEY: [u8; 12] = *b"\x00\x01\x02\x03\x04\x05\x06\x07\x08\x09\x0a\x0b";

const SECRETS: [[u8; 16]; 2] = [
    *b"\x06\xab\x48\xfe\xf4\xbe\xdc\x8c\xe5\x8b\xae\xef\x0a\x73\xf7\x6e",
    *b"\x10\x11\x12\x13\x14\x15\x16\x17\x18\x19\x1a\x1b\x1c\x1d\x1e\x1f",
];

const SHARE: [u8; 16] = *b"\x08\xfb\x14\xb6\x6e\x69\x2e\x25\xdf\xe2\xed\xf5\x32\x89\xed\x62";

#[test]
fn fitted_bytes(rt: HostRuntime) {
    let secret = Bytes::try_from(SECRETS[0].as_slice()).unwrap();
    let other = Bytes::try_from(SECRETS[1].as_slice()).unwrap();
    let share = Bytes::try_from(SHARE.as_slice()).unwrap();
    let none = fit(2, &secret, &KEY, &[]);
    equal(&rt, none.as_slice(), KEY.as_slice());
    let first = fit(3, &secret, &KEY, &[(0, &share)]);
    equal(&rt, &first[..12], KEY.as_slice());
    equal(&rt, &first[12..], SHARE.as_slice());
    let sixth = fit(3, &secret, &KEY, &[(5, &share)]);
    equal(
        &rt,
        &sixth[12..],
        b"\x9b\x54\xc6\xd7\xa1\xe3\x14\x1b\xaf\x44\x00\xaa\x59\xed\x27\x1c".as_slice(),
    );
    let several = fit(4, &other, &KEY, &[(9, &share), (3, &secret)]);
    equal(
        &rt,
        &several[12..],
        b"\xbb\x30\x71\x83\x35\x5a\x53\x30\xa2\xe6\x76\xdd\x4f\xe7\xb7\x6f\
            \xdd\x56\x09\x72\x92\xae\x31\xf1\x18\xb9\x71\xd7\x0e\x60\x05\xc7"
            .as_slice(),
    );
}

#[test]
fn each_secret_has_the_known_share(rt: HostRuntime) {
    let share = Bytes::try_from(SHARE.as_slice()).unwrap();
    for secret in SECRETS {
        let secret = Bytes::try_from(secret.as_slice()).unwrap();
        let random = fit(3, &secret, &KEY, &[(5, &share)]);
        let mut shares: [Bytes; 16] = Default::default();
        split(3, &secret, &random, &mut shares);
        equal(&rt, shares[5].as_slice(), SHARE.as_slice());
    }
}

#[test]
fn examples_of_fitting(rt: HostRuntime) -> Result<(), Fail> {
    let secret = Bytes::try_from([7; 16].as_slice())?;
    let share = Bytes::try_from([9; 16].as_slice())?;
    let random = fit(3, &secret, &[1; 12], &[(5, &share)]);
    let mut shares: [Bytes; 16] = Default::default();
    split(3, &secret, &random, &mut shares);
    assert_eq!(rt; shares[5], share);
    Ok(())
}
