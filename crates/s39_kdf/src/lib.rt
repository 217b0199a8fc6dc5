//! Key derivation and the encryption of master secrets for SLIP-0039: HMAC-SHA256 (RFC 2104),
//! PBKDF2-HMAC-SHA256 (RFC 8018), the four-round cipher, the limits of secrets and passphrases, and fingerprints.
//!
//! ```rust
//! use s39_kdf::{Params, check_secret, decrypt, encrypt};
//!
//! let params = Params {
//!     id: 4660,
//!     extendable: true,
//!     exponent: 0,
//! };
//! let secret = check_secret(&[7; 16])?;
//! let encrypted = encrypt(&secret, b"correct horse", params);
//! assert_eq!(rt; decrypt(&encrypted, b"correct horse", params), secret);
//! ```
#![tactic(auto)]

mod cipher;
mod fingerprinting;
mod key_derivation;
mod keyed_hash;
pub mod laws;
mod limits;
mod noted;
mod params;
mod round;
mod secret_form;

pub use cipher::{decrypt, encrypt, undo_round};
pub use fingerprinting::{FINGERPRINT_BYTES, fingerprint};
pub use key_derivation::{MAX_DERIVED_BYTES, pbkdf2};
pub use keyed_hash::{MAC_BYTES, hmac};
pub use limits::{
    BadPassphrase, BadSecretLength, Bytes, MAX_SECRET_BYTES, MIN_SECRET_BYTES, check_passphrase,
    check_secret, check_secret_length,
};
pub use noted::{BadFingerprint, NotedFingerprint, parse_fingerprint};
pub use params::{MAX_EXPONENT, Params};
pub use round::{ROUNDS, Round};
pub use secret_form::SecretForm;
