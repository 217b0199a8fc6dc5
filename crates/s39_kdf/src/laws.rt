//! Laws of the cipher, of the limits and of fingerprints. Each is proved as the contract of a function that does nothing.
ghost use Rattle.std.specs.Prelude.{◌≡◌, ◌+◌, ◌^◌};
ghost use Rattle.s39_kdf.specs.Cipher.{EncryptsOneSecret, SecretsHaveOneEncryption, TextsHaveOneSecret, EncryptionKeepsLengthAndBytes};
ghost use Rattle.s39_kdf.specs.Rounds.{rounds, RoundsHaveOneUndone, UndoingKeepsLengthAndBytes, UndoneRoundsDecrypt};
ghost use Rattle.s39_kdf.specs.Limits.{shortest_secret, longest_secret, exponent_bits};
ghost use Rattle.s39_kdf.specs.Passphrases.{PassphrasesHaveOneFirstUnprintable, PrintablePassphrasesHaveNone, PassphrasesArePrintableOrNot};
ghost use Rattle.s39_kdf.specs.Hmac.{block_length, mac_length};
ghost use Rattle.s39_kdf.specs.Pbkdf2.{longest_derived_key};
ghost use Rattle.s39_kdf.specs.Fingerprint.{fingerprint_length};
ghost use Rattle.s39_kdf.specs.Noted.{DigitsWriteFingerprints, PrintedFingerprintsAreRead, FingerprintsAreCompared};

use crate::fingerprinting::FINGERPRINT_BYTES;
use crate::key_derivation::MAX_DERIVED_BYTES;
use crate::keyed_hash::{BLOCK_BYTES, MAC_BYTES};
use crate::limits::{MAX_SECRET_BYTES, MIN_SECRET_BYTES};
use crate::params::MAX_EXPONENT;
use crate::round::ROUNDS;

/// The constants of the code equal the numbers of the definitions.
pub fn numbers()
    ensures shortest { MIN_SECRET_BYTES ≡ shortest_secret }
    ensures longest { MAX_SECRET_BYTES ≡ longest_secret }
    ensures exponent { MAX_EXPONENT + 1 ≡ 2 ^ exponent_bits }
    ensures rounds { ROUNDS ≡ rounds }
    ensures block { BLOCK_BYTES ≡ block_length }
    ensures mac { MAC_BYTES ≡ mac_length }
    ensures derived { MAX_DERIVED_BYTES ≡ longest_derived_key }
    ensures fingerprint { FINGERPRINT_BYTES ≡ fingerprint_length }
{}

/// Under one passphrase and one set of parameters, a byte string is the encryption of at most one secret.
pub fn encrypts_one_secret()
    ensures { EncryptsOneSecret }
{}

/// A secret of an even number of bytes has exactly one encryption, and every byte string of even length is the
/// encryption of exactly one secret.
pub fn one_encryption()
    ensures of_secrets { SecretsHaveOneEncryption }
    ensures of_texts { TextsHaveOneSecret }
{}

/// A text of even length gives exactly one text when a round is undone.
pub fn one_undone()
    ensures { RoundsHaveOneUndone }
{}

/// A text keeps its length when a round is undone, and bytes stay bytes.
pub fn undoing_keeps_length_and_bytes()
    ensures { UndoingKeepsLengthAndBytes }
{}

/// If rounds 3, 2, 1 and 0 are undone, each of what the one before it gave, the last text is the secret whose encryption the first
/// one is.
pub fn undone_rounds_decrypt()
    ensures { UndoneRoundsDecrypt }
{}

/// A secret and its encryption have the same length, and if one of them consists of bytes, so does the other.
pub fn encryption_keeps_length_and_bytes()
    ensures { EncryptionKeepsLengthAndBytes }
{}

/// Either all bytes of a passphrase are printable, or exactly one byte is the first that isn't.
pub fn passphrases_are_printable_or_not()
    ensures one { PassphrasesHaveOneFirstUnprintable }
    ensures none { PrintablePassphrasesHaveNone }
    ensures some { PassphrasesArePrintableOrNot }
{}

/// The texts of a fingerprint are just those of eight hexadecimal digits, in either case. The digits of a secret's
/// fingerprint are such a text. A secret has a noted fingerprint exactly if all bytes are the same.
pub fn noted_fingerprints()
    ensures digits { DigitsWriteFingerprints }
    ensures printed { PrintedFingerprintsAreRead }
    ensures compared { FingerprintsAreCompared }
{}
