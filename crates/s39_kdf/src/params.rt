//! The parameters of the encryption.
ghost use Rattle.std.specs.Prelude.{◌≡◌, ◌<◌, ◌^◌};
ghost use Rattle.s39_kdf.specs.Limits.{id_bits, exponent_bits};

/// The greatest iteration exponent: the field has four bits (SLIP-0039, "Format of the share mnemonic").
pub const MAX_EXPONENT: u8 = 15;

/// The fields of a backup on which the encryption of its master secret depends (SLIP-0039, "Encryption
/// of the master secret").
///
/// Code that makes a value must prove the ranges of `id` and `exponent`, which the ghost fields state.
///
/// ```rust
/// let params = Params {
///     id: 7945,
///     extendable: false,
///     exponent: 2,
/// };
/// assert_eq!(rt; params.round_iterations(), 10_000);
/// ```
#[derive(Clone, Copy, PartialEq, Eq, Debug)]
pub struct Params {
    /// The identifier, which has 15 bits: 0 to 32,767.
    pub id: u16,
    /// The extendable flag: if it is set, the identifier isn't part of the salt.
    pub extendable: bool,
    /// The iteration exponent, 0 to 15: each of the four rounds takes `2500 * 2^exponent` iterations.
    pub exponent: u8,
    ghost id_in_range: { id < 2 ^ id_bits },
    ghost exponent_in_range: { exponent < 2 ^ exponent_bits },
}

impl Params {
    ghost use Rattle.s39_kdf.specs.Cipher.{round_iterations};

    /// Returns how many iterations of PBKDF2 each of the four rounds takes: `2500 * 2^exponent`.
    pub fn round_iterations(self) -> u32
        ensures { result ≡ round_iterations self }
    {
        2500 << self.exponent
    }
}
