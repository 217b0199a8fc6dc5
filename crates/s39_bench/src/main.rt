//! Does some work of the libraries, so that its time can be measured from outside.
//!
//! `kdf E` encrypts a secret at the iteration exponent `E` and prints it in hexadecimal: four rounds of PBKDF2, which take
//! `10000 * 2^E` iterations. `split N` splits a secret of 32 bytes N times at threshold 8 of 16, and `combine N` combines
//! eight of its shares N times; both print how often it succeeded. `next G N` takes N steps through the quorums of a
//! set of G groups of `8of16`, all of which are needed, and prints how many looks they took. `repair N LINE` repairs a
//! line N times, and prints how often it found a mnemonic or one wrong word. `public N` multiplies the generator of secp256k1 by
//! N secret scalars, `address N` derives N keys of a branch of an account with their addresses, and `first N` derives the first
//! address of N master secrets; all three print how many points or addresses there are. With no argument it does `kdf 0`.
#![tactic(auto)]

ghost use Rattle.std.specs.Prelude.{◌≡◌, All};
ghost use Rattle.arrayvec.specs.ArrayVec.{array_vec_len};

mod keys;
mod steps;

use s39_kdf::{Bytes, MAX_EXPONENT, Params, check_secret, encrypt};
use s39_repair::{RepairError, repair};
use s39_split::{combine, split};
use std::{env, io};

const SECRET: [u8; 16] = *b"a master secret!";

/// The threshold of the splits.
const THRESHOLD: u8 = 8;

/// The bytes of the secret that is split.
const SECRET_BYTES: usize = 32;

/// The random bytes of one split: 28, and those of six shares.
const RANDOM_BYTES: usize = 220;

fn derive_keys(rt: &impl Print, exponent: u8) -> io::Result<()> {
    if exponent > MAX_EXPONENT {
        return Err(io::Error::from(io::ErrorKind::InvalidInput));
    }
    let params = Params {
        id: 7945,
        extendable: false,
        exponent,
    };
    if let Ok(secret) = check_secret(&SECRET) {
        let encrypted = encrypt(&secret, b"TREZOR", params);
        for byte in encrypted.as_slice() {
            print!(rt; "{byte:02x}")?;
        }
    }
    println!(rt)
}

fn secret_to_split() -> Bytes
    ensures { array_vec_len result ≡ SECRET_BYTES }
{
    Bytes::try_from([7; SECRET_BYTES].as_slice()).unwrap()
}

/// The shares of one split.
fn shares_of(secret: &Bytes) -> [Bytes; 16]
    requires { array_vec_len secret.now ≡ SECRET_BYTES }
    ensures { All (λ share. array_vec_len share ≡ SECRET_BYTES) result }
{
    let random = [39; RANDOM_BYTES];
    let mut shares: [Bytes; 16] = Default::default();
    split(THRESHOLD, secret, &random, &mut shares);
    shares
}

/// Splits as often as asked for, and counts the splits that gave a share of the secret's length.
fn split_often(times: u32) -> u32 {
    let secret = secret_to_split();
    let mut whole = 0u32;
    for _ in 0..times {
        let shares = shares_of(&secret);
        if shares[15].len() == SECRET_BYTES {
            whole = whole.saturating_add(1);
        }
    }
    whole
}

/// Combines the last eight shares as often as asked for, and counts how often the digest agreed.
fn combine_often(times: u32) -> u32 {
    let shares = shares_of(&secret_to_split());
    let mut agreed = 0u32;
    for _ in 0..times {
        let chosen = [
            (8, &shares[8]),
            (9, &shares[9]),
            (10, &shares[10]),
            (11, &shares[11]),
            (12, &shares[12]),
            (13, &shares[13]),
            (14, &shares[14]),
            (15, &shares[15]),
        ];
        if combine(THRESHOLD, &chosen).is_ok() {
            agreed = agreed.saturating_add(1);
        }
    }
    agreed
}

/// Repairs a line as often as asked for, and counts how often that found a mnemonic or one wrong word.
fn repair_often(line: Option<String>, times: u32) -> u32 {
    let Some(line) = line else {
        return 0;
    };
    let mut found = 0u32;
    for _ in 0..times {
        if let Ok(_) | Err(RepairError::WrongWord { .. }) = repair(line.as_bytes()) {
            found = found.saturating_add(1);
        }
    }
    found
}

/// The number that a word of the command line is, 0 where it isn't there.
fn number_of(word: Option<String>) -> u32 {
    match &word {
        Some(text) => text.parse::<u32>().unwrap_or(u32::MAX),
        None => 0,
    }
}

fn main(rt: HostRuntime) -> io::Result<()> {
    let mut words = env::args(&rt)?;
    let work = words.nth(1);
    let number = number_of(words.next());
    match &work {
        Some(work) if work.as_str() == "split" => {
            let whole = split_often(number);
            println!(rt; "{whole}")
        }
        Some(work) if work.as_str() == "combine" => {
            let agreed = combine_often(number);
            println!(rt; "{agreed}")
        }
        Some(work) if work.as_str() == "repair" => {
            let found = repair_often(words.next(), number);
            println!(rt; "{found}")
        }
        Some(work) if work.as_str() == "next" => {
            let groups = u8::try_from(number).unwrap_or(u8::MAX);
            let looks = steps::looks_of_steps(groups, number_of(words.next())).unwrap_or(0);
            println!(rt; "{looks}")
        }
        Some(work) if work.as_str() == "public" => {
            let points = keys::public_often(number);
            println!(rt; "{points}")
        }
        Some(work) if work.as_str() == "address" => {
            let count = keys::address_often(number);
            println!(rt; "{count}")
        }
        Some(work) if work.as_str() == "first" => {
            let count = keys::first_often(number);
            println!(rt; "{count}")
        }
        _ => derive_keys(&rt, u8::try_from(number).unwrap_or(u8::MAX)),
    }
}
