//! Keys of wallets, and addresses.

use addresses::p2wpkh;
use bip32::{ExtendedKey, HARDENED};
use curve_field::Scalar;
use curve_points::{Point, public_point};

/// The characters of an address of a key's hash.
const ADDRESS: usize = 42;

const SECRET: [u8; 16] = *b"a master secret!";

/// The path of the first account's first branch: that of the addresses to receive with (BIP-84).
const BRANCH: [u32; 4] = [HARDENED + 84, HARDENED, HARDENED, 0];

fn has_address(key: &ExtendedKey) -> bool {
    p2wpkh(&key.public_key()).len() == ADDRESS
}

/// Multiplies the generator by as many secret scalars as asked for, and counts the points.
pub fn public_often(times: u32) -> u32 {
    let Some(step) = Scalar::from_bytes(&[0x77; 32]) else {
        return 0;
    };
    let mut key = step;
    let mut points = 0u32;
    for _ in 0..times {
        if let Point::Finite(_) = public_point(key) {
            points = points.saturating_add(1);
        }
        key = key.add(step);
    }
    points
}

/// Derives as many keys of a branch as asked for, and counts their addresses.
pub fn address_often(times: u32) -> u32 {
    let Some(branch) = ExtendedKey::master(&SECRET).and_then(|master| master.at(&BRANCH)) else {
        return 0;
    };
    let mut count = 0u32;
    for index in 0..times {
        if branch.child(index).is_some_and(|key| has_address(&key)) {
            count = count.saturating_add(1);
        }
    }
    count
}

/// Derives the first address from as many master secrets as asked for, and counts the addresses.
pub fn first_often(times: u32) -> u32 {
    let mut count = 0u32;
    for number in 0..times {
        let mut secret = SECRET;
        secret[..4].copy_from_slice(&number.to_be_bytes());
        if has_first_address(&secret) {
            count = count.saturating_add(1);
        }
    }
    count
}

fn has_first_address(secret: &[u8]) -> bool {
    let [purpose, coin, account, branch] = BRANCH;
    match ExtendedKey::master(secret) {
        Some(master) => match master.at(&[purpose, coin, account, branch, 0]) {
            Some(key) => has_address(&key),
            None => false,
        },
        None => false,
    }
}
