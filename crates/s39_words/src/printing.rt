//! The printed form of a share.
ghost use Rattle.std.specs.Prelude.{◌≡◌, ◌<◌, ◌≤◌, ℕ, List, All, length, map};
ghost use Rattle.std.specs.List.{join_with_byte};
ghost use Rattle.s39_words.specs.Layout.{IsIndex};
ghost use Rattle.s39_words.specs.Printing.{listed_word, IsPrinted};
ghost use Rattle.s39_words.specs.Rows.{FitsRow, row_of};

use crate::checksum::checksum_of;
use crate::packing::data_words_of;
use crate::share::Share;
use crate::size::{MAX_LETTERS, MAX_TEXT_BYTES, MAX_WORDS};
use crate::word_list::{Row, row_at, rows};
use arrayvec::ArrayVec;

/// The letters of a row.
fn letters_of(row: &Row) -> &[u8]
    ensures { (word : List ℕ) → FitsRow word → row.now ≡ row_of word → result.now ≡ word }
{
    let len = row
        .iter()
        .position(|byte| *byte == b' ')
        .unwrap_or(MAX_LETTERS);
    &row[..len]
}

/// Returns the word at an index of the list, 0 to 1023.
///
/// ```rust
/// assert_eq!(rt; word_at(1023), b"zero".as_slice());
/// ```
pub fn word_at(index: u16) -> &'static [u8]
    requires { IsIndex index }
    ensures { result.now ≡ listed_word index }
{
    letters_of(&rows()[index as usize])
}

/// Returns the words at these indices of the list, with single spaces between them. There may be at most 110. The time
/// depends on the lengths of the words, and on nothing else that the indices tell.
///
/// ```rust
/// assert_eq!(rt; text_of(&[0, 1023]).as_slice(), b"academic zero".as_slice());
/// ```
pub fn text_of(indices: &[u16]) -> ArrayVec<u8, MAX_TEXT_BYTES>
    requires in_list { All IsIndex indices.now }
    requires short { length indices.now ≤ MAX_WORDS }
    ensures { result.items ≡ join_with_byte 32 (map listed_word indices.now) }
{
    let mut text = ArrayVec::new();
    for (i, index) in indices.iter().enumerate() {
        if i > 0 {
            text.push(b' ');
        }
        let row = row_at(*index);
        text.try_extend_from_slice(letters_of(&row)).unwrap();
    }
    text
}

/// Prints a share as a mnemonic: 20 to 110 words of the word list in lower-case letters, with single spaces between
/// them (SLIP-0039, "Format of the share mnemonic"). The text has no line feed, and [`parse`](crate::parse) reads it
/// as the same share.
///
/// ```rust
/// let line = b"duckling enlarge academic academic agency result length solution fridge kidney \
///              coal piece deal husband erode duke ajar critical decision keyboard";
/// let share = parse(line)?;
/// assert_eq!(rt; print(&share).as_slice(), line.as_slice());
/// ```
pub fn print(share: &Share) -> ArrayVec<u8, MAX_TEXT_BYTES>
    ensures { IsPrinted result.items share.now }
{
    let data_words = data_words_of(share);
    let extendable = share.extendable();
    let checksum = checksum_of(extendable, &data_words);
    let mut indices: ArrayVec<u16, MAX_WORDS> = ArrayVec::new();
    indices.try_extend_from_slice(&data_words).unwrap();
    indices.try_extend_from_slice(&checksum).unwrap();
    text_of(&indices)
}
