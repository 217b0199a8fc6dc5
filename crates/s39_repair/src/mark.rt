//! The marks of a line: what can be read of each word.
ghost use Rattle.std.specs.Prelude.{◌≡◌, ◌<◌, ◌≤◌, ◌∷◌, length, bytes_eq};
ghost use Rattle.std.specs.Str.{str_to_ascii_lowercase};
ghost use Rattle.s39_words.specs.FirstWord.{BeginsInWord};
ghost use Rattle.s39_words.specs.Layout.{word_list_length};
ghost use Rattle.s39_words.specs.Spelling.{words_of};
ghost use Rattle.s39_repair.specs.Marks.{choices, listed_that, words_in};

use s39_words::{WordRange, is_separator, word_at, words_beginning};

/// A mark with which a text begins.
#[derive(Clone, Copy)]
pub(crate) struct FirstMark<'a> {
    pub(crate) mark: &'a [u8],
    /// What follows it in the text.
    pub(crate) rest: &'a [u8],
}

/// The mark with which a text begins.
pub(crate) fn first_mark(text: &[u8]) -> FirstMark<'_>
    requires some { 0 < length text.now }
    requires begins { BeginsInWord text.now }
    ensures words { words_of text.now
        ≡ str_to_ascii_lowercase result.mark.now ∷ words_of result.rest.now }
    ensures short { length result.rest.now < length text.now }
{
    let mut end = 0;
    while end < text.len() && !is_separator(text[end]) {
        end += 1;
    }
    FirstMark {
        mark: &text[..end],
        rest: &text[end..],
    }
}

/// The word that a mark is, if it is one of the list.
fn whole_word(mark: &[u8]) -> WordRange
    ensures words { listed_that (bytes_eq (str_to_ascii_lowercase mark.now)) ≡ words_in result }
    ensures ordered { result.first ≤ result.end }
    ensures in_list { result.end ≤ word_list_length }
{
    let range = words_beginning(mark);
    if range.first < range.end && word_at(range.first).len() == mark.len() {
        WordRange {
            first: range.first,
            end: range.first + 1,
        }
    } else {
        WordRange { first: 0, end: 0 }
    }
}

/// The words for which a mark stands. The list ascends, so they stand next to one another.
pub(crate) fn choice_of(mark: &[u8]) -> WordRange
    ensures words { choices (str_to_ascii_lowercase mark.now) ≡ words_in result }
    ensures ordered { result.first ≤ result.end }
    ensures in_list { result.end ≤ word_list_length }
{
    match mark.strip_suffix(b"?") {
        Some(letters) => words_beginning(letters),
        None => whole_word(mark),
    }
}
