//! Tests of `s39_split` (published vectors, round trips at every threshold), and the examples of its doc comments in the order
//! of the files. A plain program in Python computes the examples' values.
ghost use Rattle.std.specs.Prelude.{◌≡◌, ◌+◌, ◌≤◌, ◌<◌, ◌⊎◌, length, All, IfOk};
ghost use Rattle.arrayvec.specs.ArrayVec.{array_vec_len};

use s39_kdf::{Bytes, Params, decrypt};
use s39_split::{
    DigestMismatch, MAX_RANDOM_BYTES, Points, SECRET_PLACE, combine, complete, random_needed, split,
};
use std::test::Fail;

/// The share value of member 0 of two published mnemonics, both of which are needed.
const MEMBER_0: [u8; 16] = *b"\x06\xab\x48\xfe\xf4\xbe\xdc\x8c\xe5\x8b\xae\xef\x0a\x73\xf7\x6e";

/// The share value of member 2.
const MEMBER_2: [u8; 16] = *b"\x08\xfb\x14\xb6\x6e\x69\x2e\x25\xdf\xe2\xed\xf5\x32\x89\xed\x62";

/// Combines the two shares, with their first bytes changed.
fn two_needed(change_0: u8, change_2: u8) -> Result<Bytes, DigestMismatch>
    ensures { IfOk result (λ secret. array_vec_len secret ≡ 16) }
{
    let mut member_0 = MEMBER_0;
    member_0[0] ^= change_0;
    let mut member_2 = MEMBER_2;
    member_2[0] ^= change_2;
    let member_0 = Bytes::try_from(member_0.as_slice()).unwrap();
    let member_2 = Bytes::try_from(member_2.as_slice()).unwrap();
    combine(2, &[(0, &member_0), (2, &member_2)])
}

#[test]
fn two_needed_vectors(rt: HostRuntime) {
    let encrypted = two_needed(0, 0).expect(&rt, "the digest agrees");
    let params = Params {
        id: 25653,
        extendable: false,
        exponent: 2,
    };
    assert_eq!(rt;
        decrypt(&encrypted, b"TREZOR", params).as_slice(),
        b"\xb4\x3c\xeb\x7e\x57\xa0\xea\x87\x66\x22\x16\x24\xd0\x1b\x08\x64".as_slice()
    );
}

// The changes add a polynomial that is 0 at the secret's place and 1 at that of the digest.
#[test]
fn another_digest(rt: HostRuntime) {
    let refusal = two_needed(0xFF, 0xFD).err();
    assert_eq!(rt; refusal.map(|refusal| refusal.cause(0).code), Some(51));
}

/// The share value of member 1 of the same split, as a plain program in Python computes it from the other two.
const MEMBER_1: [u8; 16] = *b"\x01\x83\x66\xda\xb9\x58\xa5\x55\xf8\x32\x02\xe2\x16\x0e\xfa\x68";

/// The secret of that split, which is an encrypted master secret, as the same program computes it.
const SPLIT: [u8; 16] = *b"\xcd\xc0\x17\xfd\xdc\x82\x9e\x79\x1b\x13\x71\x78\x0b\xe0\x60\x5a";

// Shares are computed from two members, from one and the secret, and from members of which one isn't of the split.
#[test]
fn completed_shares(rt: HostRuntime) {
    let member_0 = Bytes::try_from(MEMBER_0.as_slice()).unwrap();
    let member_1 = Bytes::try_from(MEMBER_1.as_slice()).unwrap();
    let member_2 = Bytes::try_from(MEMBER_2.as_slice()).unwrap();
    let secret = Bytes::try_from(SPLIT.as_slice()).unwrap();
    let shown = complete(2, &[(0, &member_0), (2, &member_2)], 1).expect(&rt, "they combine");
    assert_eq!(rt; shown.as_slice(), MEMBER_1.as_slice());
    let shown = complete(2, &[(255, &secret), (0, &member_0)], 2).expect(&rt, "they combine");
    assert_eq!(rt; shown.as_slice(), MEMBER_2.as_slice());
    let shown = complete(1, &[(255, &secret)], 9).expect(&rt, "one is enough");
    assert_eq!(rt; shown.as_slice(), SPLIT.as_slice());
    assert!(rt; complete(2, &[(0, &member_1), (2, &member_2)], 1).is_err());
}

#[test]
fn random_bytes(rt: HostRuntime) {
    assert_eq!(rt; random_needed(1, 16), 0);
    assert_eq!(rt; random_needed(2, 16), 12);
    assert_eq!(rt; random_needed(8, 16), 108);
    assert_eq!(rt; random_needed(16, 16), 236);
    assert_eq!(rt; random_needed(16, 64), 956);
    assert_eq!(rt; random_needed(16, 128), 1916);
}

/// Combines `t` of the shares, with the indices `start`, `start + stride`, .. modulo 16.
fn combined(
    t: u8,
    start: usize,
    stride: usize,
    shares: &[Bytes; 16],
) -> Result<Bytes, DigestMismatch>
    requires positive { 1 ≤ t }
    requires few { t ≤ 16 }
    requires start { start ≤ 16 }
    requires stride { (stride ≡ 1) ⊎ (stride ≡ 5) }
    requires length { All (λ share. array_vec_len share ≡ 16) shares.now }
{
    let mut chosen = Points::new();
    for k in 0..usize::from(t) {
        let index = (start + stride * k) % 16;
        chosen.push(index as u8, &shares[index]);
    }
    combine(t, chosen.as_slice())
}

#[test]
fn any_shares_give_the_secret(rt: HostRuntime) {
    let secret = Bytes::try_from(MEMBER_0.as_slice()).unwrap();
    let mut random = [0; 236];
    for i in 0..236 {
        random[i] = i as u8;
    }
    for t in 1..=16 {
        let mut shares: [Bytes; 16] = Default::default();
        split(t, &secret, &random[..random_needed(t, 16)], &mut shares);
        let count = usize::from(t);
        for (start, stride) in [(0, 1), (16 - count, 1), (7, 5)] {
            let combined = combined(t, start, stride, &shares).expect(&rt, "the digest agrees");
            assert_eq!(rt; combined.as_slice(), MEMBER_0.as_slice());
        }
    }
}

// A plain program in Python computes the shares.
#[test]
fn split_vectors(rt: HostRuntime) {
    let secret = Bytes::try_from(MEMBER_0.as_slice()).unwrap();
    let mut random = [0; 28];
    for i in 0..28 {
        random[i] = i as u8;
    }
    let mut shares: [Bytes; 5] = Default::default();
    split(3, &secret, &random, &mut shares);
    let expected: [&[u8; 16]; 5] = [
        b"\x0c\x0d\x0e\x0f\x10\x11\x12\x13\x14\x15\x16\x17\x18\x19\x1a\x1b",
        b"\x27\x0f\x46\xc2\xe4\xae\xcc\x9c\xf5\x9b\xbe\xff\x1a\x63\xe7\x7e",
        b"\x07\xbc\x4f\xa6\xb4\x10\xc7\x5d\x05\x11\x36\x2a\x73\x46\x92\x03",
        b"\x2c\xbe\x07\x6b\x40\xaf\x19\xd2\xe4\x9f\x9e\xc2\x71\x3c\x6f\x66",
        b"\x75\x96\xe5\xe6\x04\x98\x70\xb8\x3b\x11\xe1\x98\x69\x3d\xae\x4e",
    ];
    for i in 0..5 {
        assert_eq!(rt; shares[i].as_slice(), expected[i].as_slice());
    }
}

#[test]
fn examples_of_completion(rt: HostRuntime) -> Result<(), Fail> {
    let secret = Bytes::try_from([7; 16].as_slice())?;
    let mut shares: [Bytes; 3] = Default::default();
    split(2, &secret, &[1; 12], &mut shares);
    let share = complete(2, &[(0, &shares[0]), (SECRET_PLACE, &secret)], 2)?;
    assert_eq!(rt; share, shares[2]);
    Ok(())
}

#[test]
fn examples_of_lent_points(rt: HostRuntime) -> Result<(), Fail> {
    let share = Bytes::try_from([7; 16].as_slice())?;
    let mut points = Points::new();
    assert!(rt; points.is_empty());
    points.push(0, &share);
    assert_eq!(rt; points.len(), 1);
    assert_eq!(rt; combine(1, points.as_slice())?, share);
    Ok(())
}

#[test]
fn examples_of_the_crate(rt: HostRuntime) -> Result<(), Fail> {
    let secret = Bytes::try_from([7; 16].as_slice())?;
    assert_eq!(rt; random_needed(2, 16), 12);
    let mut shares: [Bytes; 3] = Default::default();
    split(2, &secret, &[1; 12], &mut shares);
    let recovered = combine(2, &[(1, &shares[1]), (0, &shares[0])])?;
    assert_eq!(rt; recovered, secret);
    Ok(())
}

#[test]
fn examples_of_recovery(rt: HostRuntime) -> Result<(), Fail> {
    let cause = DigestMismatch.cause(3);
    assert_eq!(rt; (cause.code, cause.first), (51, 3));

    let secret = Bytes::try_from([7; 16].as_slice())?;
    let mut shares: [Bytes; 3] = Default::default();
    split(2, &secret, &[1; 12], &mut shares);
    let recovered = combine(2, &[(0, &shares[0]), (2, &shares[2])]);
    assert_eq!(rt; recovered, Ok(secret));
    let refused = combine(2, &[(1, &shares[0]), (2, &shares[2])]);
    assert_eq!(rt; refused, Err(DigestMismatch));
    Ok(())
}

#[test]
fn examples_of_sharing(rt: HostRuntime) -> Result<(), Fail> {
    assert_eq!(rt; random_needed(1, 16), 0);
    assert_eq!(rt; random_needed(2, 16), 12);
    assert_eq!(rt; random_needed(16, 128), MAX_RANDOM_BYTES);

    let secret = Bytes::try_from([7; 16].as_slice())?;
    let mut shares: [Bytes; 3] = Default::default();
    split(2, &secret, &[1; 12], &mut shares);
    assert_eq!(rt; &shares[2][..4], b"\x7e\x99\xa2\x88".as_slice());
    Ok(())
}
