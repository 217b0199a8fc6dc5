//! Splits and combines secrets from standard input, multiplies rows of bytes, and writes and reads digits.
//!
//! `tools/timing` marks what this program reads as secret, and looks for branches and addresses that depend on it. For each
//! length of a secret, the program takes the first of 128 bytes as the secret, and the first of 252 further ones as random bytes.
//! It prints the digits of the secret that it recovers.
#![tactic(auto)]

ghost use Rattle.std.specs.Prelude.{◌≤◌, length};
ghost use Rattle.s39_kdf.specs.Limits.{longest_secret};

use s39_input::{read_hex, write_hex};
use s39_kdf::{Bytes, MAX_SECRET_BYTES, MIN_SECRET_BYTES};
use s39_split::{combine, random_needed, split};
use std::io;
use std::io::{Read, Write};

/// The threshold of the splits.
const THRESHOLD: u8 = 3;

/// The random bytes of the longest secret.
const RANDOM_BYTES: usize = 252;

/// Copies a secret by writing its digits and reading them.
#[inline(never)]
fn copied(secret: &[u8]) -> Option<Bytes>
    requires { length secret.now ≤ longest_secret }
{
    let mut digits = [0; 2 * MAX_SECRET_BYTES];
    let digits = &mut digits[..2 * secret.len()];
    write_hex(secret, digits);
    let mut bytes = [0; MAX_SECRET_BYTES];
    let bytes = &mut bytes[..secret.len()];
    if read_hex(digits, bytes) {
        Bytes::try_from(&*bytes).ok()
    } else {
        None
    }
}

/// Splits a secret and combines three of its shares.
#[inline(never)]
fn recovered(secret: &Bytes, random: &[u8; RANDOM_BYTES]) -> Option<Bytes> {
    if secret.len() < MIN_SECRET_BYTES {
        return None;
    }
    let random = &random[..random_needed(THRESHOLD, secret.len())];
    let mut shares: [Bytes; 4] = Default::default();
    split(THRESHOLD, secret, random, &mut shares);
    let chosen = [(0, &shares[0]), (2, &shares[2]), (3, &shares[3])];
    combine(THRESHOLD, &chosen).ok()
}

/// Prints the digits of a secret.
fn print_secret(output: &mut impl Write, secret: &Bytes) -> io::Result<()> {
    let mut digits = [0; 2 * MAX_SECRET_BYTES];
    let digits = &mut digits[..2 * secret.len()];
    write_hex(secret, digits);
    output.write_all(digits)?;
    output.write_all(b"\n")
}

/// Prints what is recovered of the first bytes as a secret.
fn print_recovered(
    rt: &HostRuntime,
    bytes: &[u8; MAX_SECRET_BYTES],
    random: &[u8; RANDOM_BYTES],
    n_bytes: usize,
) -> io::Result<()>
    requires { n_bytes ≤ longest_secret }
{
    let recovered = match copied(&bytes[..n_bytes]) {
        Some(secret) => recovered(&secret, random),
        None => None,
    };
    match recovered {
        Some(secret) => print_secret(&mut rt.stdout(), &secret),
        None => println!(rt; "none"),
    }
}

fn main(rt: HostRuntime) -> io::Result<()> {
    let mut secret = [0; MAX_SECRET_BYTES];
    let mut random = [0; RANDOM_BYTES];
    let mut input = rt.stdin();
    input.read_exact(&mut secret)?;
    input.read_exact(&mut random)?;
    print_recovered(&rt, &secret, &random, 16)?;
    print_recovered(&rt, &secret, &random, 18)?;
    print_recovered(&rt, &secret, &random, 24)?;
    print_recovered(&rt, &secret, &random, 32)?;
    print_recovered(&rt, &secret, &random, 64)?;
    print_recovered(&rt, &secret, &random, 128)
}
