//! The encryption of a master secret (SLIP-0039, "Encryption of the master secret").
ghost use Rattle.std.specs.Prelude.{◌≡◌, ℕ, ◌+◌, ◌%◌, ◌^◌, ◌≤◌, ◌<◌, List, ◌++◌, length};
ghost use Rattle.arrayvec.specs.ArrayVec.{array_vec_len};
ghost use Rattle.s39_kdf.specs.Bytes.{xor_of};
ghost use Rattle.s39_kdf.specs.Cipher.{round_function, IsEncryption};
ghost use Rattle.s39_kdf.specs.Rounds.{IsUndone};

use crate::key_derivation::pbkdf2;
use crate::limits::{Bytes, MAX_SECRET_BYTES};
use crate::params::Params;
use crate::round::Round;
use arrayvec::ArrayVec;

/// The most bytes of half a secret.
const MAX_HALF_BYTES: usize = MAX_SECRET_BYTES / 2;

/// Half a secret, while it is encrypted or decrypted.
type Half = ArrayVec<u8, MAX_HALF_BYTES>;

/// Encrypts a master secret under a passphrase (SLIP-0039, "Encryption of the master secret"). The secret must have an
/// even number of bytes; the result has the same length.
///
/// The passphrase may be empty, and any bytes are accepted; the standard allows printable ASCII alone, which
/// [`check_passphrase`](crate::check_passphrase) checks. The call takes `4 * params.round_iterations()` iterations of
/// PBKDF2. A secret of more than 64 bytes takes twice that number, since the key for each half then has two blocks.
///
/// ```rust
/// let params = Params {
///     id: 7945,
///     extendable: false,
///     exponent: 0,
/// };
/// let secret = check_secret(b"\xbb\x54\xaa\xc4\xb8\x9d\xc8\x68\xba\x37\xd9\xcc\x21\xb2\xce\xce")?;
/// let encrypted = encrypt(&secret, b"TREZOR", params);
/// assert_eq!(rt; &encrypted[..4], b"\x11\xbc\x60\x9d".as_slice());
/// ```
pub fn encrypt(secret: &Bytes, passphrase: &[u8], params: Params) -> Bytes
    requires { array_vec_len secret.now % 2 ≡ 0 }
    ensures value { IsEncryption secret.now.items passphrase.now params result.items }
    ensures only { (encrypted : List ℕ)
        → IsEncryption secret.now.items passphrase.now params encrypted
        → encrypted ≡ result.items }
    ensures len { array_vec_len result ≡ array_vec_len secret.now }
{
    let (h0, h1) = halves(secret);
    let h2 = round(0, h0, h1, passphrase, params);
    let h3 = round(1, h1, &h2, passphrase, params);
    let h4 = round(2, &h2, &h3, passphrase, params);
    let h5 = round(3, &h3, &h4, passphrase, params);
    join(&h5, &h4)
}

/// Decrypts an encrypted master secret: returns the only secret that [`encrypt`] turns into these bytes under the same
/// passphrase and parameters (SLIP-0039, "Encryption of the master secret"). The number of bytes must be even; the
/// result has the same length. The call takes the same number of iterations as `encrypt`.
///
/// A wrong passphrase isn't detected, as the standard intends. The result is then another secret, as a rule, and never
/// an error.
///
/// ```rust
/// let params = Params {
///     id: 7945,
///     extendable: false,
///     exponent: 0,
/// };
/// let bytes = check_secret(b"\x11\xbc\x60\x9d\x21\x74\x7c\x49\xba\x78\xc0\x70\x12\x93\xe4\x17")?;
/// let secret = decrypt(&bytes, b"TREZOR", params);
/// assert_eq!(rt; &secret[..4], b"\xbb\x54\xaa\xc4".as_slice());
/// ```
pub fn decrypt(encrypted: &Bytes, passphrase: &[u8], params: Params) -> Bytes
    requires { array_vec_len encrypted.now % 2 ≡ 0 }
    ensures value { IsEncryption result.items passphrase.now params encrypted.now.items }
    ensures only { (secret : List ℕ) → IsEncryption secret passphrase.now params encrypted.now.items
        → secret ≡ result.items }
    ensures len { array_vec_len result ≡ array_vec_len encrypted.now }
{
    let (h5, h4) = halves(encrypted);
    let h3 = round(3, h5, h4, passphrase, params);
    let h2 = round(2, h4, &h3, passphrase, params);
    let h1 = round(1, &h3, &h2, passphrase, params);
    let h0 = round(0, &h2, &h1, passphrase, params);
    join(&h0, &h1)
}

/// Undoes one round of the encryption under a passphrase (SLIP-0039, "Encryption of the master secret"). The number of bytes must
/// be even; the result has the same length.
///
/// The rounds 3, 2, 1 and 0 are undone in this order, each of what the one before it gave. The first text is the encrypted secret,
/// and the last one the secret. Each call takes a quarter of the iterations of [`decrypt`]: `params.round_iterations()`, and
/// twice as many for more than 64 bytes.
///
/// ```rust
/// let params = Params {
///     id: 7945,
///     extendable: false,
///     exponent: 0,
/// };
/// let encrypted = check_secret(b"\x11\xbc\x60\x9d\x21\x74\x7c\x49\xba\x78\xc0\x70\x12\x93\xe4\x17")?;
/// let third = undo_round(Round::new(3).unwrap(), &encrypted, b"TREZOR", params);
/// assert_eq!(rt; &third[..8], b"\xba\x78\xc0\x70\x12\x93\xe4\x17".as_slice());
/// assert_eq!(rt; &third[8..], b"\xdb\xda\xa6\xdf\x35\x14\xc7\xa6".as_slice());
/// ```
pub fn undo_round(last: Round, encrypted: &Bytes, passphrase: &[u8], params: Params) -> Bytes
    requires { array_vec_len encrypted.now % 2 ≡ 0 }
    ensures value { IsUndone passphrase.now params last.number encrypted.now.items result.items }
    ensures len { array_vec_len result ≡ array_vec_len encrypted.now }
{
    let (front, back) = halves(encrypted);
    let before = round(last.number, front, back, passphrase, params);
    if last.number == 0 {
        join(&before, back)
    } else {
        join(back, &before)
    }
}

/// The two halves of an even number of bytes.
fn halves(bytes: &Bytes) -> (&[u8], &[u8])
    requires { array_vec_len bytes.now % 2 ≡ 0 }
    ensures whole { bytes.now.items ≡ result.0.now ++ result.1.now }
    ensures same_length { length result.0.now ≡ length result.1.now }
    ensures fits { length result.1.now ≤ MAX_HALF_BYTES }
{
    bytes.split_at(bytes.len() / 2)
}

/// Xors one half with the round function of the other. The same step undoes a round.
fn round(i: u8, half: &[u8], other: &[u8], passphrase: &[u8], params: Params) -> Half
    requires same_length { length half.now ≡ length other.now }
    requires fits { length other.now ≤ MAX_HALF_BYTES }
    ensures value { result.items
        ≡ xor_of half.now (round_function passphrase.now params i other.now) }
    ensures len { array_vec_len result ≡ length half.now }
{
    let mut key = [0; MAX_HALF_BYTES];
    let key = &mut key[..other.len()];
    round_function(i, other, passphrase, params, key);
    let mut changed = Half::new();
    'bytes: for k in 0..half.len() {
        changed.push(half[k] ^ key[k]);
    }
    changed
}

/// Fills `out`, which is as long as the half, with the round function of that half.
#[tactic(auto, unfolding(crate::specs::Cipher::round_function))]
fn round_function(i: u8, half: &[u8], passphrase: &[u8], params: Params, out: &mut [u8])
    requires same_length { length out.old ≡ length half.now }
    requires fits { length out.old ≤ MAX_HALF_BYTES }
    ensures { out.new ≡ round_function passphrase.now params i half.now }
{
    let iterations = params.round_iterations();
    let password: [&[u8]; 2] = [&[i], passphrase];
    if params.extendable {
        pbkdf2(&password, &[half], iterations, out);
    } else {
        let id = params.id.to_be_bytes();
        pbkdf2(&password, &[b"shamir", &id, half], iterations, out);
    }
}

/// The two halves, joined.
fn join(front: &[u8], back: &[u8]) -> Bytes
    requires { length front.now + length back.now ≤ MAX_SECRET_BYTES }
    ensures { result.items ≡ front.now ++ back.now }
{
    let mut bytes = Bytes::new();
    bytes.try_extend_from_slice(front).unwrap();
    bytes.try_extend_from_slice(back).unwrap();
    bytes
}
