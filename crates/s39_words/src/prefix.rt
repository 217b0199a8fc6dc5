//! The words of the list that begin with given letters.
ghost use Rattle.std.specs.Prelude.{◌≡◌, ℕ, ◌-◌, ◌<◌, ◌≤◌, ◌↔◌, IsTrue, IfSome, length, take, drop, filter};
ghost use Rattle.std.specs.Cmp.Lexicographic.{slice_cmp};
ghost use Rattle.std.specs.Option.{ForNone};
ghost use Rattle.std.specs.Ordering.{nat_cmp, is_gt, is_ge};
ghost use Rattle.std.specs.Str.{str_to_ascii_lowercase};
ghost use Rattle.s39_words.specs.Layout.{IsIndex, longest_word, word_list_length};
ghost use Rattle.s39_words.specs.Prefix.{begins_with};
ghost use Rattle.s39_words.specs.Printing.{listed_word};
ghost use Rattle.s39_words.specs.Rows.{FitsRow, start_of};
ghost use Rattle.s39_words.specs.WordList.{word_list};

use crate::size::MAX_LETTERS;
use crate::word_list::{Row, rows};
use crate::word_reader::small_letter;
use arrayvec::ArrayVec;
use std::cmp::Ordering;

/// Words that stand next to one another in the word list, by their indices.
#[derive(Clone, Copy, Debug, Default, PartialEq, Eq)]
pub struct WordRange {
    /// The index of the first of these words.
    pub first: u16,
    /// The index after the last of them. It equals `first` if there is no word.
    pub end: u16,
}

/// Returns which words of the list begin with these letters: the list ascends, so they stand next to one another.
///
/// Capital letters count as lower-case ones. No word begins with any other byte, and all 1,024 words begin with no
/// letters.
///
/// ```rust
/// let range = words_beginning(b"em");
/// assert_eq!(rt; (range.first, range.end), (273, 280));
/// let emerald = words_beginning(b"EMER");
/// assert_eq!(rt; (emerald.first, emerald.end), (274, 275));
/// let none = words_beginning(b"zz");
/// assert_eq!(rt; none.first, none.end);
/// ```
pub fn words_beginning(letters: &[u8]) -> WordRange
    ensures range { (index : ℕ) → IsIndex index → IsTrue (begins_with letters.now (listed_word index))
        ↔ ((result.first ≤ index) × (index < result.end)) }
    ensures words { filter (begins_with letters.now) word_list
        ≡ take (result.end - result.first) (drop result.first word_list) }
    ensures ordered { result.first ≤ result.end }
    ensures in_list { result.end ≤ word_list_length }
{
    let Some(small) = small_letters(letters) else {
        return WordRange { first: 0, end: 0 };
    };
    let small = small.as_slice();
    let first = first_from(small);
    let end = first_behind(small);
    WordRange {
        first: first as u16,
        end: end as u16,
    }
}

/// The lower-case form of one to eight ASCII letters, or of none, or `None` for any other bytes.
fn small_letters(letters: &[u8]) -> Option<ArrayVec<u8, MAX_LETTERS>>
    ensures small { IfSome result (λ small. small.items ≡ str_to_ascii_lowercase letters.now) }
    ensures fits { IfSome result (λ small. FitsRow small.items) }
    ensures unfit { ForNone result (¬ FitsRow (str_to_ascii_lowercase letters.now)) }
{
    if letters.len() > MAX_LETTERS {
        return None;
    }
    let mut small = ArrayVec::new();
    for byte in letters {
        small.push(small_letter(*byte)?);
    }
    Some(small)
}

/// How these letters compare with as many first bytes of a row.
fn compare(letters: &[u8], row: &Row) -> Ordering
    requires { length letters.now ≤ longest_word }
    ensures { result ≡ slice_cmp nat_cmp letters.now (take (length letters.now) row.now) }
{
    letters.cmp(&row[..letters.len()])
}

/// The index of the first word that doesn't stand before these letters.
fn first_from(letters: &[u8]) -> usize
    requires { FitsRow letters.now }
    ensures point { (index : ℕ) → IsIndex index → (index < result)
        ↔ IsTrue (is_gt (slice_cmp nat_cmp letters.now (start_of letters.now index))) }
    ensures bound { result ≤ word_list_length }
{
    rows().partition_point(|row| compare(letters, row).is_gt())
}

/// The index of the first word that stands behind all words with these letters.
fn first_behind(letters: &[u8]) -> usize
    requires { FitsRow letters.now }
    ensures point { (index : ℕ) → IsIndex index → (index < result)
        ↔ IsTrue (is_ge (slice_cmp nat_cmp letters.now (start_of letters.now index))) }
    ensures bound { result ≤ word_list_length }
{
    rows().partition_point(|row| compare(letters, row).is_ge())
}
