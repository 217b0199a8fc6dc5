//! Deciphered secrets that are kept, so that none of them is deciphered again.
ghost use Rattle.std.specs.Prelude.{◌≡◌, ◌≢◌, ℕ, ◌+◌, ◌%◌, ◌≤◌, min, List, [], ◌∷◌, ◌++◌, length, map, All, Contains, None, IfSome};
ghost use Rattle.arrayvec.specs.ArrayVec.{array_vec_len};
ghost use Rattle.s39_kdf.specs.Limits.{shortest_secret};
ghost use Rattle.s39_kdf.specs.Cipher.{IsEncryption};
ghost use Rattle.s39_backup.specs.Memo.{newest, entries_of};

use arrayvec::ArrayVec;
use s39_kdf::laws::encrypts_one_secret;
use s39_kdf::{Bytes, Params, decrypt};
use std::marker::Model;

/// How many secrets a memo keeps.
pub(crate) const MAX_KEPT: usize = 4;

/// A value that was deciphered, and its secret.
#[derive(Default, Drop)]
struct Deciphered {
    encrypted: Bytes,
    secret: Bytes,
}

/// Deciphers encrypted secrets with one passphrase and one set of parameters, and keeps the last four of them, so that
/// a value that is kept isn't deciphered again.
///
/// A contract sees a memo as its passphrase, its parameters, the number of values that it deciphered, and the values
/// that it keeps, each with its secret, oldest first.
///
/// ```rust
/// let params = Params {
///     id: 7945,
///     extendable: false,
///     exponent: 0,
/// };
/// let mut memo = Memo::new(b"TREZOR", params);
/// let encrypted = *b"\x11\xbc\x60\x9d\x21\x74\x7c\x49\xba\x78\xc0\x70\x12\x93\xe4\x17";
/// let encrypted = Bytes::try_from(encrypted.as_slice()).unwrap();
/// let secret = memo.secret(&encrypted);
/// assert!(rt; secret.starts_with(b"\xbb\x54\xaa\xc4\xb8\x9d\xc8\x68"));
/// assert_eq!(rt; memo.secret(&encrypted).as_slice(), secret.as_slice());
/// assert_eq!(rt; memo.made(), 1);
/// ```
#[derive(Drop)]
pub struct Memo<'a> {
    passphrase: &'a [u8],
    params: Params,
    made: u64,
    kept: ArrayVec<Deciphered, MAX_KEPT>,
}

impl<'a> Model for Memo<'a> {
    ghost use Rattle.s39_backup.specs.Memo.{MemoState, AreDeciphered, entries_of};

    ghost Value = { MemoState };

    ghost view = { λ memo. record {
      passphrase = memo.passphrase.now;
      params = memo.params;
      made = memo.made;
      kept = entries_of memo.kept.items;
    } };

    ghost invariant = { λ memo. AreDeciphered memo.passphrase.now memo.params
        (entries_of memo.kept.items) };
}

impl<'a> Memo<'a> {
    /// Returns a memo that has deciphered nothing yet.
    pub fn new(passphrase: &'a [u8], params: Params) -> Memo<'a>
        ensures passphrase { result.passphrase ≡ passphrase.now }
        ensures params { result.params ≡ params }
        ensures made { result.made ≡ 0 }
        ensures kept { result.kept ≡ [] }
    {
        Memo {
            passphrase,
            params,
            made: 0,
            kept: ArrayVec::new(),
        }
    }

    /// Returns how many values the memo has deciphered. The count stays at 2^64 - 1 once it is there.
    pub fn made(&self) -> u64
        ensures { result ≡ self.now.made }
    {
        self.made
    }

    /// Returns the only secret whose encryption this value is (SLIP-0039, "Encryption of the master secret"). It is as
    /// long as the value.
    ///
    /// If the memo keeps the value, it deciphers nothing and stays as it is. Otherwise it deciphers the value and keeps
    /// it. If it then has five values, it drops the oldest.
    ///
    /// The caller passes an even number of bytes, at least 16.
    pub fn secret(&mut self, encrypted: &Bytes) -> Bytes
        requires even { array_vec_len encrypted.now % 2 ≡ 0 }
        requires long { shortest_secret ≤ array_vec_len encrypted.now }
        ensures secret { IsEncryption result.items
            self.old.passphrase self.old.params encrypted.now.items }
        ensures only { (secret : List ℕ)
            → IsEncryption secret self.old.passphrase self.old.params encrypted.now.items
            → secret ≡ result.items }
        ensures remembered { Contains (map (λ entry. entry.0) self.old.kept) encrypted.now.items
            → self.new ≡ self.old }
        ensures deciphered { ¬ Contains (map (λ entry. entry.0) self.old.kept) encrypted.now.items
            → self.new ≡ record self.old {
              made = min (self.old.made + 1) u64.MAX;
              kept = newest (self.old.kept ++ (encrypted.now.items, result.items) ∷ []);
            } }
    {
        encrypts_one_secret();
        if let Some(secret) = kept_secret(self.kept.as_slice(), encrypted) {
            return secret;
        }
        let secret = decrypt(encrypted, self.passphrase, self.params);
        let entry = Deciphered {
            encrypted: copied(encrypted),
            secret: copied(&secret),
        };
        keep(&mut self.kept, entry);
        self.made = self.made.saturating_add(1);
        secret
    }
}

/// The secret that is kept for this value.
fn kept_secret(kept: &[Deciphered], encrypted: &Bytes) -> Option<Bytes>
    ensures found { IfSome result (λ secret.
        Contains (entries_of kept.now) (encrypted.now.items, secret.items)) }
    ensures missing { result ≡ None
        → All (λ entry. entry.encrypted.items ≢ encrypted.now.items) kept.now }
{
    for entry in kept {
        if entry.encrypted.as_slice() == encrypted.as_slice() {
            return Some(copied(&entry.secret));
        }
    }
    None
}

/// Keeps what was deciphered, and drops the oldest of five.
fn keep(kept: &mut ArrayVec<Deciphered, MAX_KEPT>, entry: Deciphered)
    ensures { entries_of kept.new.items
        ≡ newest (entries_of kept.old.items ++ (entry.encrypted.items, entry.secret.items) ∷ []) }
{
    if kept.is_full() {
        kept.remove(0);
    }
    kept.push(entry);
}

/// A copy of bytes, which takes no memory.
fn copied(bytes: &Bytes) -> Bytes
    ensures { result.items ≡ bytes.now.items }
{
    Bytes::try_from(bytes.as_slice()).unwrap()
}
