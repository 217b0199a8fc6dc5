//! Extended private keys, and what is derived from them.

ghost use Rattle.std.specs.Prelude.{◌≡◌, ◌<◌};
ghost use Rattle.hashes.specs.Hmac.{hmac_sha512};
ghost use Rattle.bip32.specs.Derivation.{public_bytes, child_data, key_from, master, child};
ghost use Rattle.bip32.specs.Paths.{at};
ghost use Rattle.bip32.specs.Fingerprint.{fingerprint};

use curve_field::Scalar;
use curve_points::{compressed, public_point};
use hashes::{hash160, hmac_sha512};

/// A private key with its chain code.
///
/// No branch and no address depends on the keys with which a function works, except on whether one of BIP-32's rules
/// refuses a key, which a random seed meets once in 2^127, and on which children a path names.
///
/// ```rust
/// let seed = b"\x00\x01\x02\x03\x04\x05\x06\x07\x08\x09\x0a\x0b\x0c\x0d\x0e\x0f";
/// let master = some(ExtendedKey::master(seed))?;
/// assert_eq!(rt; &master.fingerprint(), b"\x34\x42\x19\x3e");
/// let key = some(master.at(&[HARDENED, 1]))?;
/// assert_eq!(rt; &key.fingerprint(), b"\xbe\xf5\xa2\xf9");
/// ```
#[derive(Drop)]
pub struct ExtendedKey {
    pub key: Scalar,
    pub chain_code: [u8; 32],
}

/// The index of the first hardened child.
pub const HARDENED: u32 = 0x8000_0000;

impl ExtendedKey {
    /// Returns the master key of a seed, or `None` if it has none.
    pub fn master(seed: &[u8]) -> Option<ExtendedKey>
        ensures { result ≡ master seed.now }
    {
        key_from(Scalar::zero(), &hmac_sha512(&[b"Bitcoin seed"], &[seed]))
    }

    /// Returns the child of this index, or `None` if there is none.
    pub fn child(&self, index: u32) -> Option<ExtendedKey>
        ensures { result ≡ child self.now index }
    {
        key_from(self.key, &self.child_mac(index))
    }

    /// Returns the normal child of this index, by the key's own public key.
    pub(crate) fn normal_child(&self, public_key: &[u8; 33], index: u32) -> Option<ExtendedKey>
        requires public { public_key.now ≡ public_bytes self.now.key }
        requires normal { index < HARDENED }
        ensures { result ≡ child self.now index }
    {
        let number = index.to_be_bytes();
        let mac = hmac_sha512(&[&self.chain_code], &[public_key, &number]);
        key_from(self.key, &mac)
    }

    fn child_mac(&self, index: u32) -> [u8; 64]
        ensures { result ≡ hmac_sha512 self.now.chain_code (child_data self.now.key index) }
    {
        let number = index.to_be_bytes();
        if index < HARDENED {
            hmac_sha512(&[&self.chain_code], &[&self.public_key(), &number])
        } else {
            hmac_sha512(&[&self.chain_code], &[&[0], &self.key.to_bytes(), &number])
        }
    }

    /// Returns the key at the end of a path, or `None` if a key on it has no such child.
    pub fn at(&self, path: &[u32]) -> Option<ExtendedKey>
        ensures { result ≡ at self.now path.now }
    {
        let mut key = ExtendedKey {
            key: self.key,
            chain_code: self.chain_code,
        };
        for index in path {
            match key.child(*index) {
                Some(child) => key = child,
                None => return None,
            }
        }
        Some(key)
    }

    /// Returns the public key in SEC 1's 33 bytes.
    pub fn public_key(&self) -> [u8; 33]
        ensures { result ≡ public_bytes self.now.key }
    {
        compressed(&public_point(self.key))
    }

    /// Returns the fingerprint: the first four bytes of the public key's identifier.
    pub fn fingerprint(&self) -> [u8; 4]
        ensures { result ≡ fingerprint self.now.key }
    {
        let [a, b, c, d, ..] = hash160(&self.public_key());
        [a, b, c, d]
    }
}

/// Returns the key that the front of the 64 bytes, added to the other key, gives, with their back as its chain code.
fn key_from(other: Scalar, mac: &[u8; 64]) -> Option<ExtendedKey>
    ensures { result ≡ key_from other mac.now }
{
    let mut front = [0; 32];
    let mut chain_code = [0; 32];
    let (left, right) = mac.split_at(32);
    front.copy_from_slice(left);
    chain_code.copy_from_slice(right);
    let key = match Scalar::from_bytes(&front) {
        Some(tweak) => tweak.add(other),
        None => return None,
    };
    if key.is_zero() {
        return None;
    }
    Some(ExtendedKey { key, chain_code })
}
