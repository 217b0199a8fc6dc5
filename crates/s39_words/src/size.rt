//! The lengths of a mnemonic and its parts (SLIP-0039, "Format of the share mnemonic").
use s39_kdf::{MAX_SECRET_BYTES, MIN_SECRET_BYTES};

/// The most letters of a word in the list.
pub(crate) const MAX_LETTERS: usize = 8;

/// The bits that a word encodes.
pub(crate) const WORD_BITS: usize = 10;

/// The bits of the fields before the value.
pub(crate) const HEADER_BITS: usize = 40;

/// The number of bits of an identifier, which is below 2^15.
pub const ID_BITS: usize = 15;

/// The bits of an iteration exponent.
pub(crate) const EXPONENT_BITS: usize = 4;

/// The bits of a group or member index, of a threshold and of the group count. Thresholds and the count are stored
/// less one.
pub(crate) const COUNT_BITS: usize = 4;

/// The place of the extendable flag, which has one bit and stands behind the identifier.
pub(crate) const FLAG_PLACE: usize = ID_BITS;

/// The place of the iteration exponent.
pub(crate) const EXPONENT_PLACE: usize = FLAG_PLACE + 1;

/// The place of the group index.
pub(crate) const GROUP_INDEX_PLACE: usize = EXPONENT_PLACE + EXPONENT_BITS;

/// The place of the group threshold.
pub(crate) const GROUP_THRESHOLD_PLACE: usize = GROUP_INDEX_PLACE + COUNT_BITS;

/// The place of the group count.
pub(crate) const GROUP_COUNT_PLACE: usize = GROUP_THRESHOLD_PLACE + COUNT_BITS;

/// The place of the member index.
pub(crate) const MEMBER_INDEX_PLACE: usize = GROUP_COUNT_PLACE + COUNT_BITS;

/// The place of the member threshold.
pub(crate) const MEMBER_THRESHOLD_PLACE: usize = MEMBER_INDEX_PLACE + COUNT_BITS;

/// The most groups of a backup: group indices are 0 to 15.
pub const MAX_GROUPS: u8 = 16;

/// The most members of a group: member indices are 0 to 15.
pub const MAX_MEMBERS: u8 = 16;

/// The bits of two bytes: a value has an even number of bytes.
pub(crate) const BYTE_PAIR_BITS: usize = 16;

/// The most bits of padding before the value.
pub(crate) const MAX_PADDING_BITS: usize = 8;

/// The words of the checksum.
pub(crate) const CHECKSUM_WORDS: usize = 3;

/// The words that don't hold the value: the fields before it, and the checksum.
pub(crate) const OTHER_WORDS: usize = HEADER_BITS / WORD_BITS + CHECKSUM_WORDS;

/// The fewest words of a mnemonic: those of the shortest value and the others.
pub(crate) const MIN_WORDS: usize = (8 * MIN_SECRET_BYTES + WORD_BITS - 1) / WORD_BITS
    + OTHER_WORDS;

/// The most words of a mnemonic.
pub const MAX_WORDS: usize = (8 * MAX_SECRET_BYTES + WORD_BITS - 1) / WORD_BITS + OTHER_WORDS;

/// The most words of a mnemonic before its checksum.
pub(crate) const MAX_DATA_WORDS: usize = MAX_WORDS - CHECKSUM_WORDS;

/// The most bytes of a printed mnemonic: 989, for 110 words of eight letters with single spaces between them.
pub const MAX_TEXT_BYTES: usize = (MAX_LETTERS + 1) * MAX_WORDS - 1;
