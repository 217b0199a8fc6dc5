//! Worked examples of what `s39_secrecy` proves: backups of two secrets from random bytes that correspond, and shares one short that rule out a
//! secret. A plain program in Python computes the random bytes, the shares and the encrypted secrets.
ghost use Rattle.std.specs.Prelude.{◌≡◌, ◌⊎◌, ℕ, ◌<◌, ◌≤◌, List, length, All, IsTrue};
ghost use Rattle.s39_kdf.specs.Limits.{shortest_secret};
ghost use Rattle.s39_split.specs.Sharing.{most_shares, secret_place, IsSplit};
ghost use Rattle.s39_split.specs.Completion.{ArePointsOf};
ghost use Rattle.s39_split.specs.Shares.{indexed_bytes, AreDistinct, HaveOneLength};

use crate::expect::{equal, holds};
use s39_backup::{Created, Options, Plan, create, refit};
use s39_kdf::{Bytes, Params, encrypt};
use s39_set::parse_quorum;
use s39_split::{SECRET_PLACE, complete};
use s39_words::print;

/// The master secret of a published vector, twice; a backup has the first half or both.
const SECRET: [u8; 32] = *b"\xbb\x54\xaa\xc4\xb8\x9d\xc8\x68\xba\x37\xd9\xcc\x21\xb2\xce\xce\
    \xce\xce\xb2\x21\xcc\xd9\x37\xba\x68\xc8\x9d\xb8\xc4\xaa\x54\xbb";

/// The same of another vector.
const OTHER: [u8; 32] = *b"\xb4\x3c\xeb\x7e\x57\xa0\xea\x87\x66\x22\x16\x24\xd0\x1b\x08\x64\
    \x64\x08\x1b\xd0\x24\x16\x22\x66\x87\xea\xa0\x57\x7e\xeb\x3c\xb4";

/// With the plan `3of5`, what corresponds for the name 0.4.
const MEMBER_4: [u8; 30] =
    *b"\x01\x08\x0f\x16\x1d\x24\x2b\x32\x39\x40\x47\x4e\x55\x5c\x90\x23\x80\x5f\x44\xff\x16\xd8\x2b\x6c\x61\x0d\
    \x90\xdf\xa6\x4f";

/// With the plan `2/3of5,1of1,1of1`, what corresponds for the name 0.3.
const ONE_OF_FAMILY: [u8; 90] =
    *b"\x01\x08\x0f\x16\x1d\x24\x2b\x32\x39\x40\x47\x4e\x55\x5c\x63\x6a\x71\x78\x7f\x86\x8d\x94\x9b\xa2\xa9\xb0\
    \xb7\xbe\xc5\xcc\xd3\xda\xe1\xe8\xef\xf6\xfd\x04\x0b\x12\x19\x20\x27\x2e\x35\x3c\x43\x4a\x51\x58\x5f\x66\
    \x6d\x74\x7b\x82\x89\x90\x7c\xa0\x58\xce\x60\x14\x68\x90\xed\xae\x0b\x76\xdb\x68\x7d\xfb\x9e\xb1\xd8\x79\
    \xe2\xc5\x05\x87\xdd\x3f\xa2\xba\xbb\xe2\xab\x52";

/// With the plan `3/3of5,2of3,1of1,1of1`, what corresponds for 0.2 and 1.1, which hold group 1.
const TWO_GROUPS: [u8; 70] =
    *b"\x01\x08\x0f\x16\x1d\x24\x2b\x32\x39\x40\x47\x4e\x55\x5c\x13\x36\x8c\xa8\x9b\x47\xb2\xf2\x27\x73\x85\xbc\
    \xd5\xa6\x7f\x2a\xd3\xda\xe1\xe8\xef\xf6\xfd\x04\x0b\x12\x19\x20\x58\x31\x1c\xe3\xab\xaa\xb4\xd8\x8c\x11\
    \xfd\xd1\x98\xd3\x85\xc4\x97\x9e\xa5\xac\xb3\xba\xc1\xc8\xcf\xd6\xdd\xe4";

/// With the same plan, what corresponds for 0.4 and 3.0, which hold group 3.
const HELD_GROUP: [u8; 150] =
    *b"\x01\x08\x0f\x16\x1d\x24\x2b\x32\x39\x40\x47\x4e\x55\x5c\x63\x6a\x71\x78\x7f\x86\x8d\x94\x9b\xa2\xa9\xb0\
    \xb7\xbe\xc5\xcc\x18\xde\x68\xde\x76\x60\xb7\xad\x71\x43\xde\x13\xa3\x23\xe7\x63\x8d\xe1\x17\x15\x38\x5a\
    \xf6\xdf\x27\x92\xb5\xed\x49\x53\x01\xd6\xb3\xba\xc1\xc8\xcf\xd6\xdd\xe4\xeb\xf2\xf9\x00\x07\x0e\x15\x1c\
    \x23\x2a\x31\x38\x3f\x46\x4d\x54\x5b\x62\x69\x70\x43\xec\xdc\x99\x61\x31\x25\x98\xe9\xb7\x17\xe2\x6f\x33\
    \xf3\xe4\xc7\x66\xcc\xf7\x13\x75\x5b\x90\xff\x91\x52\xfd\xac\x86\x98\x16\x57\x5e\x65\x6c\x73\x7a\x81\x88\
    \x8f\x96\x9d\xa4\xab\xb2\xb9\xc0\xc7\xce\xd5\xdc\xe3\xea\xf1\xf8\xff\x06\x0d\x14";

/// The encryptions of the first halves of both secrets, with the identifier that the bytes 1 and 8 give.
const ENCRYPTED: [u8; 16] = *b"\xc9\x6b\x02\x51\x19\x71\xa5\x02\x6f\x56\x4a\x82\x65\xc7\x13\x79";

const OTHER_ENCRYPTED: [u8; 16] =
    *b"\xfd\x29\xc6\x50\xfd\xb0\x9a\x64\xd3\x87\x66\x8e\x07\xdf\xa9\x9f";

/// The values of the shares 0.0 of a backup by `2of3`, 0.1 and 0.4 by `3of5`, and 1.0 by `2/2of3,1of1,1of1`.
const ONE_OF_TWO: [u8; 16] = *b"\x23\x93\x38\x3e\x44\xd7\xc2\xe4\x01\xea\x54\xbd\x52\xe4\x98\x85";

const TWO_OF_THREE: [[u8; 16]; 2] = [
    *b"\xd5\x3f\xdf\x20\x69\xe1\x35\xb2\xdf\xc6\xda\x72\x95\x37\x83\xe9",
    *b"\x5d\xc0\xfd\x55\x22\x2d\xdf\x80\x8e\xe3\x96\x4a\xf9\xd9\xfd\x5a",
];

const ONE_GROUP: [u8; 16] = *b"\x95\xc6\x96\x66\x52\xb0\x7a\xc2\x45\x8e\x27\x7f\x70\x6d\xde\xa0";

const OPTIONS: Options = Options {
    exponent: 0,
    extendable: false,
};

/// The bytes 1, 8, 15, .., modulo 256.
fn first_bytes() -> [u8; 150] {
    let mut bytes = [0; 150];
    for i in 0..150 {
        bytes[i] = ((7 * i + 1) % 256) as u8;
    }
    bytes
}

/// Whether a plan has shares with all of these names.
fn has_names(plan: &Plan, names: &[(u8, u8)]) -> bool {
    names.iter().all(|name| plan.has_name(name.0, name.1))
}

/// Whether two backups have the same mnemonics with these names.
fn have_the_same(first: &Created, second: &Created, names: &[(u8, u8)]) -> bool {
    for (share, other) in first.shares().iter().zip(second.shares()) {
        if names.contains(&(share.group_index(), share.member_index()))
            && print(share).as_slice() != print(other).as_slice()
        {
            return false;
        }
    }
    true
}

// With the random bytes themselves, the other secret doesn't have the same mnemonics.
#[test]
fn corresponding_bytes_give_the_shares(rt: HostRuntime) {
    let rows: [(&str, &[u8], usize, &[u8]); 4] = [
        ("3of5", b"0.4", 16, &MEMBER_4),
        ("2/3of5,1of1,1of1", b"0.3", 32, &ONE_OF_FAMILY),
        ("3/3of5,2of3,1of1,1of1", b"0.2+1.1", 16, &TWO_GROUPS),
        ("3/3of5,2of3,1of1,1of1", b"0.4+3.0", 32, &HELD_GROUP),
    ];
    let bytes = first_bytes();
    for (text, names, n, fitted) in rows {
        let plan = Plan::parse(text).expect(&rt, "a plan");
        let random = &bytes[..fitted.len()];
        let mut first = Created::new();
        create(&plan, &SECRET[..n], b"TREZOR", OPTIONS, random, &mut first).expect(&rt, "accepted");
        let mut second = Created::new();
        create(&plan, &OTHER[..n], b"TREZOR", OPTIONS, fitted, &mut second).expect(&rt, "accepted");
        let keep = parse_quorum(names).expect(&rt, "names");
        holds(&rt, has_names(&plan, keep.pairs()));
        holds(&rt, have_the_same(&first, &second, keep.pairs()));
        let mut third = Created::new();
        create(&plan, &OTHER[..n], b"TREZOR", OPTIONS, random, &mut third).expect(&rt, "accepted");
        holds(&rt, !have_the_same(&first, &third, keep.pairs()));
        let mut copy = bytes;
        let refitted = &mut copy[..fitted.len()];
        let answer = refit(
            &plan,
            &SECRET[..n],
            &OTHER[..n],
            b"TREZOR",
            OPTIONS,
            &keep,
            refitted,
        );
        holds(&rt, answer);
        equal(&rt, &copy[..fitted.len()], fitted);
    }
}

/// Whether shares of a level and a secret at its place are points of no split: then the shares rule out the secret.
fn are_of_no_split(t: u8, points: &[(u8, &Bytes)]) -> bool
    requires positive { 1 ≤ t }
    requires few { t ≤ most_shares }
    requires number { length points.now ≡ t }
    requires distinct { AreDistinct (indexed_bytes points.now) }
    requires places { All (λ point. (point.0 < most_shares) ⊎ (point.0 ≡ secret_place))
        (indexed_bytes points.now) }
    requires one_length { HaveOneLength (indexed_bytes points.now) }
    requires long { All (λ point. shortest_secret ≤ length point.1) (indexed_bytes points.now) }
    ensures { IsTrue result → (count : ℕ) (secret random : List ℕ) (shares : List (List ℕ))
        → IsSplit t count secret random shares
        → ¬ ArePointsOf secret shares (indexed_bytes points.now) }
{
    match complete(t, points, 0) {
        Ok(_) => false,
        Err(_) => true,
    }
}

// One member of `2of3`, two of `3of5`, and one complete group of `2/2of3,1of1,1of1`.
#[test]
fn one_short_rules_out_a_secret(rt: HostRuntime) {
    let bytes = first_bytes();
    let rows: [(&str, usize, usize, [u8; 16]); 4] = [
        ("2of3", 14, 0, ONE_OF_TWO),
        ("3of5", 30, 1, TWO_OF_THREE[0]),
        ("3of5", 30, 4, TWO_OF_THREE[1]),
        ("2/2of3,1of1,1of1", 26, 3, ONE_GROUP),
    ];
    for (text, needed, place, value) in rows {
        let plan = Plan::parse(text).expect(&rt, "a plan");
        let mut created = Created::new();
        create(
            &plan,
            &SECRET[..16],
            b"TREZOR",
            OPTIONS,
            &bytes[..needed],
            &mut created,
        )
        .expect(&rt, "accepted");
        let share = created.shares().get(place).expect(&rt, "a share");
        equal(&rt, share.value().as_slice(), value.as_slice());
    }
    let params = Params {
        id: 0x0108,
        extendable: false,
        exponent: 0,
    };
    let secret = Bytes::try_from(&SECRET[..16]).unwrap();
    let other = Bytes::try_from(&OTHER[..16]).unwrap();
    equal(
        &rt,
        encrypt(&secret, b"TREZOR", params).as_slice(),
        ENCRYPTED.as_slice(),
    );
    equal(
        &rt,
        encrypt(&other, b"TREZOR", params).as_slice(),
        OTHER_ENCRYPTED.as_slice(),
    );
    for (encrypted, ruled_out) in [(ENCRYPTED, false), (OTHER_ENCRYPTED, true)] {
        let encrypted = Bytes::try_from(encrypted.as_slice()).unwrap();
        let one = Bytes::try_from(ONE_OF_TWO.as_slice()).unwrap();
        equal(
            &rt,
            are_of_no_split(2, &[(0, &one), (SECRET_PLACE, &encrypted)]),
            ruled_out,
        );
        let first = Bytes::try_from(TWO_OF_THREE[0].as_slice()).unwrap();
        let second = Bytes::try_from(TWO_OF_THREE[1].as_slice()).unwrap();
        let points = [(1, &first), (4, &second), (SECRET_PLACE, &encrypted)];
        equal(&rt, are_of_no_split(3, &points), ruled_out);
        let group = Bytes::try_from(ONE_GROUP.as_slice()).unwrap();
        equal(
            &rt,
            are_of_no_split(2, &[(1, &group), (SECRET_PLACE, &encrypted)]),
            ruled_out,
        );
    }
}
