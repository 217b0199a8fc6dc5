//! Addresses as data, and their texts.
ghost use Rattle.std.specs.Prelude.{◌≡◌, ◌≤◌, length};
ghost use Rattle.addresses.specs.Address.{coordinates, address_at, address_of, text_of};

use crate::bitcoin::{hash_text, witness_script};
use crate::ethereum::{account, erc55};
use crate::taproot::output_key;
use arrayvec::ArrayVec;
use base58::MAX_TEXT;
use bech32::segwit_address;
use curve_points::{Affine, Point, compressed};
use hashes::hash160;

/// A kind of address that wallets show.
#[derive(Clone, Copy, Debug, PartialEq, Eq)]
pub enum Kind {
    /// Pay to the hash of a public key.
    P2pkh,
    /// Pay to the hash of the script that holds the hash of a public key.
    P2shP2wpkh,
    /// Pay to the hash of a public key, as a witness program.
    P2wpkh,
    /// Pay to the output key of a public key with no script.
    P2tr,
    /// An account of Ethereum.
    Ethereum,
}

/// An address of the main network: its form, and the bytes that its text writes.
///
/// ```rust
/// let address = Address::P2wpkh(*b"\x75\x1e\x76\xe8\x19\x91\x96\xd4\x54\x94\x1c\x45\xd1\xb3\xa3\x23\xf1\x43\x3b\xd6");
/// assert!(rt; address.text().as_slice() == b"bc1qw508d6qejxtdg4y5r3zarvary0c5xw7kv8f3t4".as_slice());
/// ```
#[derive(Clone, Copy, Debug, PartialEq, Eq)]
pub enum Address {
    /// The hash of a public key.
    P2pkh([u8; 20]),
    /// The hash of a script. The text doesn't tell which script it is.
    P2sh([u8; 20]),
    /// The hash of a public key, as a witness program.
    P2wpkh([u8; 20]),
    /// An output key, as a witness program.
    P2tr([u8; 32]),
    /// An account of Ethereum.
    Ethereum([u8; 20]),
}

impl Address {
    /// Returns the address of this kind of a public key, or `None` if the key is infinity, or a P2TR address is wanted and the
    /// key has no output key.
    pub fn of(kind: Kind, key: &Point) -> Option<Address>
        ensures { result ≡ address_of kind key.now }
    {
        match key {
            Point::Infinity => None,
            Point::Finite(a) => address_at(kind, a),
        }
    }

    /// Returns the text, Ethereum's with the capitals of ERC-55.
    pub fn text(&self) -> ArrayVec<u8, MAX_TEXT>
        ensures { result.items ≡ text_of self.now }
    {
        match self {
            Address::P2pkh(hash) => hash_text(0, hash),
            Address::P2sh(hash) => hash_text(5, hash),
            Address::P2wpkh(hash) => copied(&segwit_address(b"bc", 0, hash)),
            Address::P2tr(key) => copied(&segwit_address(b"bc", 1, key)),
            Address::Ethereum(bytes) => copied(&erc55(bytes)),
        }
    }
}

fn address_at(kind: Kind, key: &Affine) -> Option<Address>
    ensures { result ≡ address_at kind key.now }
{
    let bytes = compressed(&Point::Finite(*key));
    match kind {
        Kind::P2pkh => Some(Address::P2pkh(hash160(&bytes))),
        Kind::P2shP2wpkh => Some(Address::P2sh(hash160(&witness_script(&bytes)))),
        Kind::P2wpkh => Some(Address::P2wpkh(hash160(&bytes))),
        Kind::P2tr => match output_key(&key.x.to_bytes()) {
            Some(output) => Some(Address::P2tr(output)),
            None => None,
        },
        Kind::Ethereum => Some(Address::Ethereum(account(&coordinates(key)))),
    }
}

/// Both coordinates, of 32 bytes each.
fn coordinates(key: &Affine) -> [u8; 64]
    ensures { result ≡ coordinates key.now }
{
    let mut bytes = [0; 64];
    let (x, y) = bytes.split_at_mut(32);
    x.copy_from_slice(&key.x.to_bytes());
    y.copy_from_slice(&key.y.to_bytes());
    bytes
}

fn copied(text: &[u8]) -> ArrayVec<u8, MAX_TEXT>
    requires { length text.now ≤ MAX_TEXT }
    ensures { result.items ≡ text.now }
{
    let mut copy = ArrayVec::new();
    copy.try_extend_from_slice(text).unwrap();
    copy
}
