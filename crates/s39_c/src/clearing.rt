//! How many words of the stack each call clears: somewhat more than it reaches down, which tools/leftovers tells.

/// How many words of 64 bits a KiB has.
const KIB: usize = 128;

pub(crate) const WORDS: usize = 8 * KIB;

pub(crate) const PARSE: usize = 8 * KIB;

pub(crate) const FINGERPRINT: usize = 8 * KIB;

pub(crate) const REPAIR: usize = 20 * KIB;

pub(crate) const CREATE: usize = 96 * KIB;

pub(crate) const CREATE_FROM_ENCRYPTED: usize = 144 * KIB;

pub(crate) const STATUS: usize = 224 * KIB;

pub(crate) const JUDGE: usize = 224 * KIB;

pub(crate) const QUORUMS: usize = 224 * KIB;

pub(crate) const ENCRYPTED: usize = 256 * KIB;

pub(crate) const DECRYPT: usize = 16 * KIB;

pub(crate) const DECRYPT_ROUND: usize = 16 * KIB;

pub(crate) const RESPLIT: usize = 256 * KIB;

pub(crate) const RECOVER: usize = 264 * KIB;

pub(crate) const DRILL: usize = 352 * KIB;

pub(crate) const REISSUE: usize = 416 * KIB;
