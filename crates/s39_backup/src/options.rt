//! The options of a creation.
ghost use Rattle.std.specs.Prelude.{◌<◌, ◌^◌};
ghost use Rattle.s39_kdf.specs.Limits.{exponent_bits};

/// The options of a creation, besides the secret, the passphrase and the plan.
#[derive(Clone, Copy, Debug, PartialEq, Eq)]
pub struct Options {
    /// The iteration exponent, from 0 to 15. Each of the four rounds of the encryption takes `2500 * 2^exponent`
    /// iterations of PBKDF2 (SLIP-0039, "Encryption of the master secret").
    pub exponent: u8,
    /// The extendable flag: if it is set, the encryption doesn't depend on the identifier.
    pub extendable: bool,
    ghost exponent_in_range: { exponent < 2 ^ exponent_bits },
}
