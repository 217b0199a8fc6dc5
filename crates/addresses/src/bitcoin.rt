//! Bitcoin's addresses that hold the hash of a public key.
ghost use Rattle.std.specs.Prelude.{◌≡◌, ◌∷◌};
ghost use Rattle.base58.specs.Base58.{base58check};
ghost use Rattle.addresses.specs.Bitcoin.{witness_script, p2pkh, p2sh_p2wpkh, p2wpkh};

use arrayvec::ArrayVec;
use base58::{MAX_TEXT, base58check};
use bech32::{MAX_ADDRESS, segwit_address};
use hashes::hash160;

/// The bytes of a compressed public key.
pub const PUBLIC_KEY_BYTES: usize = 33;

/// Pay to the hash of a public key (P2PKH).
pub fn p2pkh(key: &[u8; PUBLIC_KEY_BYTES]) -> ArrayVec<u8, MAX_TEXT>
    ensures { result.items ≡ p2pkh key.now }
{
    hash_text(0, &hash160(key))
}

/// Pay to the hash of the script that holds the hash of a public key (P2SH-P2WPKH).
pub fn p2sh_p2wpkh(key: &[u8; PUBLIC_KEY_BYTES]) -> ArrayVec<u8, MAX_TEXT>
    ensures { result.items ≡ p2sh_p2wpkh key.now }
{
    hash_text(5, &hash160(&witness_script(key)))
}

/// Pay to the hash of a public key, as a witness program (P2WPKH).
pub fn p2wpkh(key: &[u8; PUBLIC_KEY_BYTES]) -> ArrayVec<u8, MAX_ADDRESS>
    ensures { result.items ≡ p2wpkh key.now }
{
    segwit_address(b"bc", 0, &hash160(key))
}

/// The text of a hash behind a version.
pub(crate) fn hash_text(version: u8, hash: &[u8; 20]) -> ArrayVec<u8, MAX_TEXT>
    ensures { result.items ≡ base58check (version ∷ hash.now) }
{
    let mut bytes = [version; 21];
    bytes[1..21].copy_from_slice(hash);
    base58check(&bytes)
}

/// The script of the witness program that is the key's hash.
pub(crate) fn witness_script(key: &[u8; PUBLIC_KEY_BYTES]) -> [u8; 22]
    ensures { result ≡ witness_script key.now }
{
    let mut script = [0; 22];
    script[1] = 20;
    script[2..22].copy_from_slice(&hash160(key));
    script
}
