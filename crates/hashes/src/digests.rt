//! Digests of digests.
ghost use Rattle.std.specs.Prelude.{◌≡◌, ◌++◌};
ghost use Rattle.sha2.specs.Sha256.{sha256};
ghost use Rattle.hashes.specs.Digests.{double_sha256, hash160, tagged_hash};

use crate::ripemd::ripemd160;
use sha2::{Digest, Sha256};

/// Returns the SHA-256 of the SHA-256 of the message.
pub fn double_sha256(message: &[u8]) -> [u8; 32]
    ensures { result ≡ double_sha256 message.now }
{
    sha256(&sha256(message))
}

/// Returns the RIPEMD-160 of the SHA-256 of the message: the identifier of a public key or of a script.
pub fn hash160(message: &[u8]) -> [u8; 20]
    ensures { result ≡ hash160 message.now }
{
    ripemd160(&sha256(message))
}

/// Returns the hash of the message under this tag, as BIP-340 defines it.
pub fn tagged_hash(tag: &[u8], message: &[u8]) -> [u8; 32]
    ensures { result ≡ tagged_hash tag.now message.now }
{
    let prefix = sha256(tag);
    let mut hasher = Sha256::new();
    hasher.update(prefix);
    hasher.update(prefix);
    hasher.update(message);
    hasher.finalize()
}

fn sha256(message: &[u8]) -> [u8; 32]
    ensures { result ≡ sha256 message.now }
{
    Sha256::digest(message)
}
