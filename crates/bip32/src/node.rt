//! Extended keys with their places below a master key, and their 78 bytes.

ghost use Rattle.std.specs.Prelude.{◌≡◌, ◌∷◌, ◌≤◌, length};
ghost use Rattle.std.specs.Int.{bytes_high_first};
ghost use Rattle.bip32.specs.Serialization.{child_of, master_node, node_at, serialized, serialized_private, serialized_public};

use crate::extended_key::ExtendedKey;
use arrayvec::ArrayVec;
use curve_field::Scalar;

/// The number of bytes of an extended key.
pub const SERIALIZED_BYTES: usize = 78;

/// An extended private key with its place below a master key.
///
/// ```rust
/// let node = some(Node::at(&master, &[HARDENED, 1]))?;
/// assert_eq!(rt; node.depth, 2);
/// assert_eq!(rt; &node.parent, b"\x5c\x1b\xd6\x48");
/// assert_eq!(rt; &node.serialized_public(0x0488_b21e)[..5], b"\x04\x88\xb2\x1e\x02".as_slice());
/// ```
#[derive(Drop)]
pub struct Node {
    pub key: ExtendedKey,
    pub depth: u8,
    pub parent: [u8; 4],
    pub number: u32,
}

impl Node {
    /// Returns the node at the end of a path from a master key, or `None` if a key on the path has no such child. A path has
    /// at most 255 indexes, as the depth is one byte. Only one fingerprint is made, the last parent's.
    pub fn at(master: &ExtendedKey, path: &[u32]) -> Option<Node>
        requires { length path.now ≤ 255 }
        ensures { result ≡ node_at (master_node master.now) path.now }
    {
        match path.split_last() {
            None => Some(Node {
                key: ExtendedKey {
                    key: master.key,
                    chain_code: master.chain_code,
                },
                depth: 0,
                parent: [0; 4],
                number: 0,
            }),
            Some((last, front)) => match master.at(front) {
                Some(parent) => child_of(&parent, path.len() as u8, *last),
                None => None,
            },
        }
    }

    /// Returns the bytes of the private key.
    pub fn serialized_private(&self, version: u32) -> ArrayVec<u8, SERIALIZED_BYTES>
        ensures { result.items ≡ serialized_private version self.now }
    {
        self.serialized(version, &private_bytes(self.key.key))
    }

    /// Returns the bytes of the public key, which are BIP-32's extended public key.
    pub fn serialized_public(&self, version: u32) -> ArrayVec<u8, SERIALIZED_BYTES>
        ensures { result.items ≡ serialized_public version self.now }
    {
        self.serialized(version, &self.key.public_key())
    }

    fn serialized(&self, version: u32, key: &[u8; 33]) -> ArrayVec<u8, SERIALIZED_BYTES>
        ensures { result.items ≡ serialized version self.now key.now }
    {
        let mut bytes = ArrayVec::new();
        bytes.try_extend_from_slice(&version.to_be_bytes()).unwrap();
        bytes.push(self.depth);
        bytes.try_extend_from_slice(&self.parent).unwrap();
        bytes
            .try_extend_from_slice(&self.number.to_be_bytes())
            .unwrap();
        bytes.try_extend_from_slice(&self.key.chain_code).unwrap();
        bytes.try_extend_from_slice(key).unwrap();
        bytes
    }
}

fn child_of(parent: &ExtendedKey, depth: u8, number: u32) -> Option<Node>
    ensures { result ≡ child_of parent.now depth number }
{
    match parent.child(number) {
        Some(key) => Some(Node {
            key,
            depth,
            parent: parent.fingerprint(),
            number,
        }),
        None => None,
    }
}

/// Returns the private key in 33 bytes, of which the first is 0.
fn private_bytes(key: Scalar) -> [u8; 33]
    ensures { result ≡ 0 ∷ bytes_high_first 32 key }
{
    let mut bytes = [0; 33];
    let (_, rest) = bytes.split_at_mut(1);
    rest.copy_from_slice(&key.to_bytes());
    bytes
}
