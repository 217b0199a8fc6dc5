//! The words of a mnemonic as the fields of a share, and the fields as words.
ghost use Rattle.std.specs.Prelude.{◌≡◌, ◌+◌, ◌*◌, ◌/◌, ◌%◌, ◌^◌, ◌<◌, ◌≤◌, ◌↔◌, All, length, IsSome, IfSome};
ghost use Rattle.s39_words.specs.Layout.{IsIndex};
ghost use Rattle.s39_words.specs.Reading.{IsWordCount, number_at as number_in, flag_of, padding_of};
ghost use Rattle.s39_words.specs.Reading.{share_value_at, fields_at};
ghost use Rattle.s39_words.specs.Share.{IsShare, header_number, data_words};

use crate::share::{Share, ShareFields};
use crate::size::{
    BYTE_PAIR_BITS, COUNT_BITS, EXPONENT_BITS, EXPONENT_PLACE, FLAG_PLACE, GROUP_COUNT_PLACE,
    GROUP_INDEX_PLACE, GROUP_THRESHOLD_PLACE, HEADER_BITS, ID_BITS, MAX_DATA_WORDS,
    MEMBER_INDEX_PLACE, MEMBER_THRESHOLD_PLACE, OTHER_WORDS, WORD_BITS,
};
use crate::word_writer::WordWriter;
use arrayvec::ArrayVec;
use s39_kdf::Bytes;

/// The number in `width` binary digits of the words, from this place on. Each word has ten digits.
fn number_at(words: &[u16], place: usize, width: usize) -> u16
    requires indices { All IsIndex words.now }
    requires width { width ≤ ID_BITS }
    requires in_two_words { place % WORD_BITS + width ≤ 2 * WORD_BITS }
    requires within { place / WORD_BITS + 1 < length words.now }
    ensures number { result ≡ number_in words.now place width }
    ensures below { result < 2 ^ width }
{
    let first = place / WORD_BITS;
    let pair = u32::from(words[first]) << WORD_BITS | u32::from(words[first + 1]);
    let behind = 2 * WORD_BITS - place % WORD_BITS - width;
    (pair >> behind & ((1 << width) - 1)) as u16
}

/// Whether the extendable flag is set in the words of a mnemonic.
pub(crate) fn has_flag(words: &[u16]) -> bool
    requires indices { All IsIndex words.now }
    requires count { IsWordCount (length words.now) }
    ensures { result ≡ flag_of words.now }
{
    number_at(words, FLAG_PLACE, 1) == 1
}

/// The fields in the words of a mnemonic, or `None` if a padding bit isn't 0.
pub(crate) fn fields_of(words: &[u16]) -> Option<ShareFields>
    requires indices { All IsIndex words.now }
    requires count { IsWordCount (length words.now) }
    ensures padding { IsSome result ↔ (padding_of words.now ≡ 0) }
    ensures fields { IfSome result (λ fields. fields ≡ fields_at words.now) }
{
    Some(ShareFields {
        value: value_of(words)?,
        id: number_at(words, 0, ID_BITS),
        extendable: has_flag(words),
        exponent: number_at(words, EXPONENT_PLACE, EXPONENT_BITS) as u8,
        group_index: number_at(words, GROUP_INDEX_PLACE, COUNT_BITS) as u8,
        group_threshold: number_at(words, GROUP_THRESHOLD_PLACE, COUNT_BITS) as u8 + 1,
        group_count: number_at(words, GROUP_COUNT_PLACE, COUNT_BITS) as u8 + 1,
        member_index: number_at(words, MEMBER_INDEX_PLACE, COUNT_BITS) as u8,
        member_threshold: number_at(words, MEMBER_THRESHOLD_PLACE, COUNT_BITS) as u8 + 1,
    })
}

/// The value in the words of a mnemonic, or `None` if a padding bit before it isn't 0.
fn value_of(words: &[u16]) -> Option<Bytes>
    requires indices { All IsIndex words.now }
    requires count { IsWordCount (length words.now) }
    ensures padding { IsSome result ↔ (padding_of words.now ≡ 0) }
    ensures value { IfSome result (λ value. value.items ≡ share_value_at words.now) }
{
    let digits = WORD_BITS * (words.len() - OTHER_WORDS);
    let padding = digits % BYTE_PAIR_BITS;
    if number_at(words, HEADER_BITS, padding) != 0 {
        return None;
    }
    let mut value = Bytes::new();
    for i in 0..(digits - padding) / 8 {
        value.push(number_at(words, HEADER_BITS + padding + 8 * i, 8) as u8);
    }
    Some(value)
}

/// All fields of a share, without the checksum, as words.
pub(crate) fn data_words_of(share: &Share) -> ArrayVec<u16, MAX_DATA_WORDS>
    ensures same { result.items ≡ data_words share.now }
    ensures in_list { All IsIndex result.items }
    ensures in_range { IsShare share.now }
{
    let fields = share.fields();
    let mut words = header_of(fields);
    let bytes = fields.value.as_slice();
    words.write(0, (WORD_BITS - 8 * bytes.len() % WORD_BITS) % WORD_BITS);
    for byte in bytes {
        words.write(u16::from(*byte), 8);
    }
    words.into_words()
}

/// The fields before the value, written.
fn header_of(fields: &ShareFields) -> WordWriter
    requires { IsShare fields.now }
    ensures { result ≡ record { count = HEADER_BITS; number = header_number fields.now } }
{
    let mut words = WordWriter::new();
    words.write(fields.id, ID_BITS);
    words.write(u16::from(fields.extendable), 1);
    words.write(u16::from(fields.exponent), EXPONENT_BITS);
    words.write(u16::from(fields.group_index), COUNT_BITS);
    words.write(u16::from(fields.group_threshold - 1), COUNT_BITS);
    words.write(u16::from(fields.group_count - 1), COUNT_BITS);
    words.write(u16::from(fields.member_index), COUNT_BITS);
    words.write(u16::from(fields.member_threshold - 1), COUNT_BITS);
    words
}
