//! Parents of many children.

ghost use Rattle.std.specs.Prelude.{◌≡◌, ◌<◌};
ghost use Rattle.bip32.specs.Derivation.{child};

use crate::extended_key::{ExtendedKey, HARDENED};
use std::marker::Model;

/// An extended private key with its public key, which is computed once. So a normal child takes no multiplication.
///
/// ```rust
/// let parent = Parent::new(some(master.at(&[HARDENED]))?);
/// let second = some(parent.child(1))?;
/// assert_eq!(rt; &second.fingerprint(), b"\xbe\xf5\xa2\xf9");
/// ```
#[derive(Drop)]
pub struct Parent {
    key: ExtendedKey,
    public_key: [u8; 33],
}

impl Model for Parent {
    ghost use Rattle.std.specs.Prelude.{◌≡◌};
    ghost use Rattle.bip32.specs.declared.extended_key.ExtendedKey.{ExtendedKey};
    ghost use Rattle.bip32.specs.Derivation.{public_bytes};

    ghost Value = { ExtendedKey };

    ghost view = { λ p. p.key };

    ghost invariant = { λ p. p.public_key ≡ public_bytes p.key.key };
}

impl Parent {
    /// Computes the public key of an extended key.
    pub fn new(key: ExtendedKey) -> Parent
        ensures { result ≡ key }
    {
        let public_key = key.public_key();
        Parent { key, public_key }
    }

    /// Returns the child of this index, or `None` if there is none.
    pub fn child(&self, index: u32) -> Option<ExtendedKey>
        ensures { result ≡ child self.now index }
    {
        if index < HARDENED {
            self.key.normal_child(&self.public_key, index)
        } else {
            self.key.child(index)
        }
    }
}
