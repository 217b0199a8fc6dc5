//! The text of a mnemonic.
ghost use Rattle.std.specs.Prelude.{◌≡◌, ◌↔◌, ℕ, List, All, IsTrue, IfOk, IfErr, length};
ghost use Rattle.s39_words.specs.Layout.{IsIndex};
ghost use Rattle.s39_words.specs.Reading.{IsWordCount, indices_from, reading};
ghost use Rattle.s39_words.specs.Spelling.{words_of};
ghost use Rattle.s39_words.specs.Mistyping.{IsMnemonic, IsMistyped};

use crate::checksum::is_valid_checksum;
use crate::packing::{fields_of, has_flag};
use crate::share::Share;
use crate::size::{BYTE_PAIR_BITS, MAX_PADDING_BITS, MAX_WORDS, MIN_WORDS, OTHER_WORDS, WORD_BITS};
use crate::word_error::WordError;
use crate::word_reader::{after_separators, first_word};
use arrayvec::ArrayVec;

/// Reads a text of any length as the share that it spells (SLIP-0039, "Format of the share mnemonic"). Any number of
/// spaces, tabs and carriage returns may stand before, between and after the words. Capital letters count as lower-case
/// ones.
///
/// The error is the first of these causes that applies: an unknown word, a number of words that no mnemonic has, a
/// checksum that isn't valid, a padding bit that isn't 0, or a group threshold above the group count.
///
/// Up to three wrong words in a mnemonic are always detected, unless they change the extendable flag. If all of them are
/// words of the list, the error is [`WordError::BadChecksum`].
///
/// ```rust
/// let line = b"duckling enlarge academic academic agency result length solution fridge kidney \
///              coal piece deal husband erode duke ajar critical decision kidney";
/// assert_eq!(rt; parse(line).err(), Some(WordError::BadChecksum));
/// let refusal = parse(b"Academic\tacadmic").err();
/// assert_eq!(rt; refusal, Some(WordError::UnknownWord { position: 2 }));
/// ```
pub fn parse(line: &[u8]) -> Result<Share, WordError>
    ensures reading { reading line.now ≡ result }
    // One, two or three wrong words of a mnemonic are found.
    ensures mistyped { (mnemonic : List ℕ) → IsMnemonic mnemonic → IsMistyped line.now mnemonic
        → result ≡ Err WordError.BadChecksum }
{
    let indices = indices_of(line)?;
    let words = indices.as_slice();
    let extendable = has_flag(words);
    if !is_valid_checksum(extendable, words) {
        return Err(WordError::BadChecksum);
    }
    let Some(fields) = fields_of(words) else {
        return Err(WordError::BadPadding);
    };
    Share::new(fields).ok_or(WordError::GroupThreshold)
}

/// The indices of a mnemonic's words in the word list.
pub(crate) type Indices = ArrayVec<u16, MAX_WORDS>;

/// The indices of a text's words, if all are in the word list and a mnemonic may have that many.
pub(crate) fn indices_of(line: &[u8]) -> Result<Indices, WordError>
    ensures found { IfOk result (λ indices.
        indices_from 1 (words_of line.now) ≡ Ok indices.items) }
    ensures count { IfOk result (λ indices. IsWordCount (length indices.items)) }
    ensures in_list { IfOk result (λ indices. All IsIndex indices.items) }
    ensures refused { IfErr result (λ e. reading line.now ≡ Err e) }
{
    let mut indices = ArrayVec::new();
    let mut words = 0;
    let mut rest = after_separators(line);
    while !rest.is_empty() {
        words += 1;
        let Some(word) = first_word(rest) else {
            return Err(WordError::UnknownWord { position: words });
        };
        // Words beyond the most that a mnemonic may have are only counted.
        let _ = indices.try_push(word.index);
        rest = after_separators(word.rest);
    }
    if is_word_count(words) {
        Ok(indices)
    } else {
        Err(WordError::WordCount { words })
    }
}

/// Returns whether a mnemonic may have this many words.
///
/// ```rust
/// assert!(rt; is_word_count(20) && is_word_count(110));
/// assert!(rt; !is_word_count(21));
/// ```
pub fn is_word_count(words: usize) -> bool
    ensures { IsTrue result ↔ IsWordCount words }
{
    (MIN_WORDS..=MAX_WORDS).contains(&words)
        && WORD_BITS * (words - OTHER_WORDS) % BYTE_PAIR_BITS <= MAX_PADDING_BITS
}
