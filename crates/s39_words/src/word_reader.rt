//! The words of a text, each found and looked up in one pass over its bytes.
ghost use Rattle.std.specs.Prelude.{◌≡◌, ℕ, ◌-◌, ◌<◌, ◌≤◌, ◌↔◌, List, ◌∷◌, ◌++◌, [], length, drop, All, Some, None, IsSome, IfSome, IsTrue};
ghost use Rattle.std.specs.Char.{is_ascii_alphabetic, to_ascii_lowercase};
ghost use Rattle.std.specs.Option.{ForNone};
ghost use Rattle.std.specs.Str.{str_to_ascii_lowercase};
ghost use Rattle.s39_words.specs.Layout.{IsIndex, longest_word};
ghost use Rattle.s39_words.specs.FirstWord.{BeginsInWord, BeginsWith};
ghost use Rattle.s39_words.specs.Spelling.{is_separator, words_of};
ghost use Rattle.s39_words.specs.WordList.{index_of, IsLetter};
ghost use Rattle.s39_words.specs.Rows.{FitsRow, row_of, number_of_row};

use crate::size::MAX_LETTERS;
use crate::word_list::index_of_number;

/// The number of a row of spaces.
const SPACES: u64 = 0x2020_2020_2020_2020;

/// A word of the list that a text begins with.
#[derive(Clone, Copy)]
pub(crate) struct FirstWord<'a> {
    /// Its index in the list.
    pub(crate) index: u16,
    /// What follows it in the text.
    pub(crate) rest: &'a [u8],
}

/// The row of a word that a text begins with.
#[derive(Clone, Copy)]
struct FirstRow<'a> {
    /// The row as a number.
    number: u64,
    /// What follows the word in the text.
    rest: &'a [u8],
}

/// Returns whether this byte separates words. Separators are the space, the tab and the carriage return.
///
/// ```rust
/// assert!(rt; is_separator(b' ') && is_separator(b'\t'));
/// assert!(rt; !is_separator(b'\n'));
/// ```
pub fn is_separator(byte: u8) -> bool
    ensures { result ≡ is_separator byte }
{
    byte == b' ' || byte == b'\t' || byte == b'\r'
}

/// Returns the text from its first byte on that separates no words, or an empty text if there is no such byte.
///
/// ```rust
/// assert_eq!(rt; after_separators(b" \tzero "), b"zero ".as_slice());
/// ```
pub fn after_separators(text: &[u8]) -> &[u8]
    ensures same_words { words_of result.now ≡ words_of text.now }
    ensures begins { BeginsInWord result.now }
    ensures suffix { (n : ℕ) × (result.now ≡ drop n text.now) }
{
    let mut rest = text;
    while !rest.is_empty() && is_separator(rest[0]) {
        rest = &rest[1..];
    }
    rest
}

/// The lower-case form of an ASCII letter, or `None` for any other byte.
pub(crate) fn small_letter(byte: u8) -> Option<u8>
    ensures letter { IsSome result ↔ IsTrue (is_ascii_alphabetic byte) }
    ensures small { IfSome result (λ letter. letter ≡ to_ascii_lowercase byte) }
{
    if byte.is_ascii_alphabetic() {
        Some(byte.to_ascii_lowercase())
    } else {
        None
    }
}

/// The number of a row whose first space, which stands behind `letters` letters, becomes a letter.
fn with_letter(number: u64, letters: usize, letter: u8) -> u64
    requires small { IsLetter letter }
    requires row { (word : List ℕ) × (length word ≡ letters) × (letters < longest_word)
        × All IsLetter word × (number ≡ number_of_row (row_of word)) }
    ensures { (word : List ℕ) → length word ≡ letters → number ≡ number_of_row (row_of word)
        → result ≡ number_of_row (row_of (word ++ letter ∷ [])) }
{
    number + (u64::from(letter - b' ') << (8 * (MAX_LETTERS - 1 - letters)))
}

/// The row of the word that a text begins with, in lower-case letters, or `None` if that word has more than eight bytes
/// or one that isn't a letter.
fn first_row(text: &[u8]) -> Option<FirstRow<'_>>
    ensures row { IfSome result (λ first. (word : List ℕ) × BeginsWith text.now word first.rest.now
        × FitsRow (str_to_ascii_lowercase word)
        × (first.number ≡ number_of_row (row_of (str_to_ascii_lowercase word)))) }
    ensures unfit { ForNone result ((word rest : List ℕ) → BeginsWith text.now word rest
        → ¬ FitsRow (str_to_ascii_lowercase word)) }
{
    let mut number = SPACES;
    for (i, byte) in text.iter().enumerate() {
        if is_separator(*byte) {
            return Some(FirstRow {
                number,
                rest: &text[i..],
            });
        }
        if i == MAX_LETTERS {
            return None;
        }
        number = with_letter(number, i, small_letter(*byte)?);
    }
    Some(FirstRow { number, rest: &[] })
}

/// The word that a text begins with, or `None` if it isn't in the list.
pub(crate) fn first_word(text: &[u8]) -> Option<FirstWord<'_>>
    requires some { 0 < length text.now }
    requires begins { BeginsInWord text.now }
    ensures known { IfSome result (λ first. (word : List ℕ) × (index_of word ≡ Some first.index)
        × (words_of text.now ≡ word ∷ words_of first.rest.now)) }
    ensures short { IfSome result (λ first. length first.rest.now < length text.now) }
    ensures unknown { ForNone result ((word : List ℕ) × (later : List (List ℕ))
        × (words_of text.now ≡ word ∷ later) × (index_of word ≡ None)) }
{
    let row = first_row(text)?;
    let index = index_of_number(row.number)?;
    Some(FirstWord {
        index,
        rest: row.rest,
    })
}
