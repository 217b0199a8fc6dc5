//! Accounts of a master key, and their addresses.
ghost use Rattle.std.specs.Prelude.{◌≡◌, ◌^◌, ◌<◌, ◌≤◌, length};
ghost use Rattle.curve_points.specs.Multiples.{public_point};
ghost use Rattle.bip32.specs.Serialization.{master_node};
ghost use Rattle.accounts.specs.Paths.{purpose, coin, chain_number, account_path};
ghost use Rattle.accounts.specs.Accounts.{found, account, chain_key, address, version, public_text, private_text, master_text};

use addresses::{Address, Kind};
use arrayvec::ArrayVec;
use base58::{MAX_TEXT, base58check};
use bip32::{ExtendedKey, HARDENED, Node, Parent};
use curve_points::public_point;

/// What an account's addresses are for.
#[derive(Clone, Copy, Debug, PartialEq, Eq)]
pub enum Chain {
    /// To be given to others.
    Receive,
    /// For what is left of the wallet's own payments.
    Change,
}

/// There is no key or address at a path: a key on it has no such child (BIP-32), the public key is infinity, or a P2TR address
/// has no output key (BIP-341). With a random seed, each step meets this once in about 2^127.
#[derive(Clone, Copy, Debug, PartialEq, Eq)]
pub struct NoKey;

/// Returns an account's key, with its place below the master key, or `NoKey` if a key on the path has no such child.
///
/// ```rust
/// let first = found(account(&master, Kind::P2wpkh, 0))?;
/// let text = public_text(Kind::P2wpkh, &first);
/// assert!(rt; text.as_slice().starts_with(b"zpub6rFR7y4Q2AijBEqTUquhVz398htDFrtymD9xYYfG1m4wA"));
/// let receive = found(chain_key(&first.key, Chain::Receive))?;
/// let address = found(address(Kind::P2wpkh, &receive, 0))?;
/// assert!(rt; address.text().as_slice() == b"bc1qcr8te4kr609gcawutmrza0j4xv80jy8z306fyu".as_slice());
/// ```
pub fn account(master: &ExtendedKey, kind: Kind, number: u32) -> Result<Node, NoKey>
    requires { number < HARDENED }
    ensures { result ≡ found (account master.now kind number) }
{
    match Node::at(master, &account_path(kind, number)) {
        Some(node) => Ok(node),
        None => Err(NoKey),
    }
}

/// Returns the key below which an account's addresses are, or `NoKey` if the account has no such child. It takes two
/// multiplications, and each address one more.
pub fn chain_key(account: &ExtendedKey, chain: Chain) -> Result<Parent, NoKey>
    ensures { result ≡ found (chain_key account.now chain) }
{
    match account.child(chain_number(chain)) {
        Some(key) => Ok(Parent::new(key)),
        None => Err(NoKey),
    }
}

/// Returns the address of this index on a chain, or `NoKey` if the chain has no such child, or its public key has no address of
/// this kind. It takes one multiplication, and for P2TR two.
pub fn address(kind: Kind, chain: &Parent, index: u32) -> Result<Address, NoKey>
    requires { index < HARDENED }
    ensures { result ≡ found (address kind chain.now index) }
{
    match chain.child(index) {
        Some(key) => match Address::of(kind, &public_point(key.key)) {
            Some(address) => Ok(address),
            None => Err(NoKey),
        },
        None => Err(NoKey),
    }
}

/// Returns the text of an account's extended public key: an `xpub`, a `ypub` for P2SH-P2WPKH, and a `zpub` for P2WPKH.
pub fn public_text(kind: Kind, account: &Node) -> ArrayVec<u8, MAX_TEXT>
    ensures { result.items ≡ public_text kind account.now }
{
    base58check(&account.serialized_public(version(kind)))
}

/// Returns the text of a master key's extended private key, an `xprv`.
pub fn master_text(master: &ExtendedKey) -> ArrayVec<u8, MAX_TEXT>
    ensures { result.items ≡ master_text master.now }
{
    private_text(&master_node(master))
}

fn private_text(node: &Node) -> ArrayVec<u8, MAX_TEXT>
    ensures { result.items ≡ private_text node.now }
{
    base58check(&node.serialized_private(0x0488_ade4))
}

fn master_node(master: &ExtendedKey) -> Node
    ensures { result ≡ master_node master.now }
{
    Node {
        key: ExtendedKey {
            key: master.key,
            chain_code: master.chain_code,
        },
        depth: 0,
        parent: [0; 4],
        number: 0,
    }
}

fn account_path(kind: Kind, number: u32) -> [u32; 3]
    requires { number < HARDENED }
    ensures { result ≡ account_path kind number }
{
    [
        HARDENED + purpose(kind),
        HARDENED + coin(kind),
        HARDENED + number,
    ]
}

fn purpose(kind: Kind) -> u32
    ensures number { result ≡ purpose kind }
    ensures small { result < 100 }
{
    match kind {
        Kind::P2pkh => 44,
        Kind::P2shP2wpkh => 49,
        Kind::P2wpkh => 84,
        Kind::P2tr => 86,
        Kind::Ethereum => 44,
    }
}

fn coin(kind: Kind) -> u32
    ensures number { result ≡ coin kind }
    ensures small { result < 100 }
{
    match kind {
        Kind::Ethereum => 60,
        _ => 0,
    }
}

fn chain_number(chain: Chain) -> u32
    ensures { result ≡ chain_number chain }
{
    match chain {
        Chain::Receive => 0,
        Chain::Change => 1,
    }
}

/// The version of an extended public key whose addresses have this kind.
fn version(kind: Kind) -> u32
    ensures { result ≡ version kind }
{
    match kind {
        Kind::P2pkh => 0x0488_b21e,
        Kind::P2shP2wpkh => 0x049d_7cb2,
        Kind::P2wpkh => 0x04b2_4746,
        Kind::P2tr => 0x0488_b21e,
        Kind::Ethereum => 0x0488_b21e,
    }
}
