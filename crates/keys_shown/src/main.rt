//! Derives a key of a wallet, and writes what belongs to it, so that checks can compare this and look at how it is done.
//!
//! The words are `private` or `public`, the length of the master secret, at most 64 bytes, and the indexes of a path, at most 16. The
//! secret comes from standard input. `private` writes the 78 bytes of the extended private key and their text. `public` writes the
//! fingerprint, the 78 bytes of the extended public key and their text, and the addresses, each in a line: P2PKH, P2SH-P2WPKH, P2WPKH,
//! and Ethereum's. If there is no such key, both write `none`.
//!
//! All that the crates of keys compute with lies on the stack below `main`, which clears it at the end, as a caller of them has to.
#![tactic(auto)]

ghost use Rattle.std.specs.Prelude.{◌≤◌, length};

use addresses::{ethereum_address, p2pkh, p2sh_p2wpkh, p2wpkh};
use arrayvec::ArrayVec;
use base58::base58check;
use bip32::{ExtendedKey, Node};
use curve_points::{Affine, Point, public_point};
use s39_clearing::clear_stack;
use std::io::{Read, Write};
use std::process::ExitCode;
use std::{env, io};

/// The versions of extended keys on Bitcoin's main network (BIP-32).
const XPRV: u32 = 0x0488_ade4;

const XPUB: u32 = 0x0488_b21e;

const MAX_SECRET_BYTES: usize = 64;

const MAX_INDEXES: usize = 16;

/// How many words of the stack are cleared: 32 KiB. tools/leftovers finds what isn't cleared.
const REACHED: usize = 4096;

/// What the words of the command ask for.
#[derive(Drop)]
struct Request {
    is_private: bool,
    n_bytes: usize,
    path: ArrayVec<u32, MAX_INDEXES>,
}

fn number_of(word: &str) -> u32 {
    word.parse::<u32>().unwrap_or(u32::MAX)
}

fn asked(rt: &HostRuntime) -> io::Result<Request> {
    let mut words = env::args(rt)?;
    let is_private = match words.nth(1) {
        Some(word) => word.as_str() == "private",
        None => false,
    };
    let n_bytes = match words.next() {
        Some(word) => number_of(&word) as usize,
        None => 0,
    };
    let mut path = ArrayVec::new();
    for word in words {
        let _ = path.try_push(number_of(&word));
    }
    Ok(Request {
        is_private,
        n_bytes,
        path,
    })
}

fn node_of(secret: &[u8], path: &[u32]) -> Option<Node>
    requires { length path.now ≤ 255 }
{
    match ExtendedKey::master(secret) {
        Some(master) => Node::at(&master, path),
        None => None,
    }
}

fn write_line(output: &mut impl Write, text: &[u8]) -> io::Result<()> {
    output.write_all(text)?;
    output.write_all(b"\n")
}

fn write_private(output: &mut impl Write, node: &Node) -> io::Result<()> {
    let bytes = node.serialized_private(XPRV);
    output.write_all(&bytes)?;
    write_line(output, &base58check(&bytes))
}

fn write_public(output: &mut impl Write, node: &Node) -> io::Result<()> {
    output.write_all(&node.key.fingerprint())?;
    let bytes = node.serialized_public(XPUB);
    output.write_all(&bytes)?;
    write_line(output, &base58check(&bytes))?;
    let key = node.key.public_key();
    write_line(output, &p2pkh(&key))?;
    write_line(output, &p2sh_p2wpkh(&key))?;
    write_line(output, &p2wpkh(&key))?;
    match public_point(node.key.key) {
        Point::Finite(point) => write_line(output, &ethereum_address(&coordinates_of(&point))),
        Point::Infinity => Ok(()),
    }
}

fn coordinates_of(point: &Affine) -> [u8; 64] {
    let mut coordinates = [0; 64];
    coordinates[..32].copy_from_slice(&point.x.to_bytes());
    coordinates[32..].copy_from_slice(&point.y.to_bytes());
    coordinates
}

/// Reads the secret, and writes what is asked for.
fn answer(rt: &HostRuntime, asked: &Request) -> io::Result<()> {
    let mut bytes = [0; MAX_SECRET_BYTES];
    let secret = &mut bytes[..asked.n_bytes.min(MAX_SECRET_BYTES)];
    rt.stdin().read_exact(secret)?;
    let output = &mut rt.stdout();
    match node_of(secret, &asked.path) {
        Some(node) if asked.is_private => write_private(output, &node),
        Some(node) => write_public(output, &node),
        None => write_line(output, b"none"),
    }
}

/// Does all, and returns the exit status.
#[inline(never)]
fn status(rt: &HostRuntime) -> u8 {
    match asked(rt).and_then(|asked| answer(rt, &asked)) {
        Ok(()) => 0,
        Err(_) => 1,
    }
}

fn main(rt: HostRuntime) -> ExitCode {
    let ended = status(&rt);
    let _ = clear_stack::<REACHED>();
    ExitCode::from(ended)
}
