//! The answer to a line of marks.
ghost use Rattle.std.specs.Prelude.{All, Err, length};
ghost use Rattle.s39_words.specs.Layout.{IsIndex};
ghost use Rattle.s39_words.specs.Reading.{IsWordCount, Reads};
ghost use Rattle.s39_words.specs.declared.word_error.WordError.{WordError as Cause};
ghost use Rattle.s39_repair.specs.Answer.{Repairs, RepairsWhole, RefusesWords};
ghost use Rattle.s39_repair.specs.Marks.{spelling, AreClosed, IsRange};

use crate::candidate::first_words;
use crate::marks::marks_of;
use crate::open_places::open_places;
use crate::repair_error::RepairError;
use crate::repaired::{Repaired, all_fitting};
use crate::wrong_word::wrong_word;
use s39_words::{WordError, WordRange, parse, text_of};

/// The refusal of words with a wrong checksum.
fn bad_checksum(words: &[u16]) -> RepairError
    requires in_list { All IsIndex words.now }
    requires count { IsWordCount (length words.now) }
    requires bad { Reads (spelling words.now) (Err Cause.BadChecksum) }
    ensures { RefusesWords words.now result }
{
    match wrong_word(words) {
        Some(position) => RepairError::WrongWord { position },
        None => RepairError::BadChecksum,
    }
}

/// The refusal of words that are no mnemonic. All are in the list, and a mnemonic may have as many.
fn refusal(words: &[u16], error: WordError) -> RepairError
    requires in_list { All IsIndex words.now }
    requires count { IsWordCount (length words.now) }
    requires reading { Reads (spelling words.now) (Err error) }
    ensures { RefusesWords words.now result }
{
    match error {
        WordError::UnknownWord { position } => RepairError::UnknownWord { position },
        WordError::WordCount { words } => RepairError::WordCount { words },
        WordError::BadChecksum => bad_checksum(words),
        WordError::BadPadding => RepairError::BadPadding,
        WordError::GroupThreshold => RepairError::GroupThreshold,
    }
}

/// The answer to a line in which no place is open.
fn whole(ranges: &[WordRange]) -> Result<Repaired, RepairError>
    requires all { All IsRange ranges.now }
    requires count { IsWordCount (length ranges.now) }
    requires closed { AreClosed ranges.now }
    ensures { RepairsWhole ranges.now result }
{
    let words = first_words(ranges);
    match parse(&text_of(&words)) {
        Ok(share) => Ok(Repaired {
            first: share,
            second: None,
        }),
        Err(error) => Err(refusal(&words, error)),
    }
}

/// Finds the mnemonics that fit a line of marks, or the first cause for which there is none.
///
/// A mark is a word of the list, or letters followed by one `?`, which stand for every word that begins with them.
/// Marks are separated as words are (see [`parse`]), and capital letters count as lower-case ones. A place is open if
/// its mark stands for more than one word. A mnemonic fits if it has as many words as the line has marks, [`parse`]
/// accepts it, and the mark at the place of each word stands for this word. Up to three places may be open. At most two
/// mnemonics fit, and two only if the second word is open, since that word holds the extendable flag.
///
/// If no place is open and the checksum isn't valid, the error names the word that is wrong, if just one is.
///
/// ```rust
/// let line = b"duckling enlarge academic academic ? result le? so? fridge kidney \
///              coal piece deal husband erode duke ajar critical decision keyboard";
/// let repaired = repair(line)?;
/// assert_eq!(rt; repaired.first.id(), 7945);
/// assert!(rt; repaired.second.is_none());
/// let refusal = repair(b"duckling enlarge zz?").err();
/// assert_eq!(rt; refusal, Some(RepairError::UnknownWord { position: 3 }));
/// ```
pub fn repair(line: &[u8]) -> Result<Repaired, RepairError>
    ensures { Repairs line.now result }
{
    let marks = marks_of(line)?;
    let ranges = marks.as_slice();
    let places = match open_places(ranges) {
        Ok(places) => places,
        Err(places) => return Err(RepairError::UnreadableWords { places }),
    };
    if places.first >= ranges.len() {
        return whole(ranges);
    }
    match all_fitting(ranges, places) {
        Some(repaired) => Ok(repaired),
        None => Err(RepairError::NoMnemonic),
    }
}
