//! Why a text spells no share.
ghost use Rattle.std.specs.Prelude.{◌≡◌};

use s39_refusal::{Cause, code};

/// The first cause for which a text spells no share. The causes are tried in the order in which they stand here.
///
/// ```rust
/// let cause = WordError::UnknownWord { position: 2 }.cause();
/// assert_eq!(rt; (cause.code, cause.first), (11, 2));
/// ```
#[derive(Clone, Copy, Debug, PartialEq, Eq)]
pub enum WordError {
    /// A word isn't in the word list. The first such word has this position, counted from 1.
    UnknownWord { position: usize },
    /// All words are in the word list, but no mnemonic has that many.
    WordCount { words: usize },
    /// The checksum isn't valid (SLIP-0039, "Checksum").
    BadChecksum,
    /// A padding bit before the value isn't zero.
    BadPadding,
    /// The group threshold is above the group count.
    GroupThreshold,
}

impl WordError {
    ghost use Rattle.s39_words.specs.Reading.{cause_of};

    /// Returns what the refusal says: its number, from 11 for `UnknownWord` to 15 for `GroupThreshold`. The first
    /// detail is the position or the number of words, and 0 for the other causes.
    pub fn cause(&self) -> Cause
        ensures { result ≡ cause_of self.now }
    {
        match self {
            WordError::UnknownWord { position } => {
                Cause::new(code::UNKNOWN_WORD, *position as u64, 0)
            }
            WordError::WordCount { words } => Cause::new(code::WORD_COUNT, *words as u64, 0),
            WordError::BadChecksum => Cause::of(code::BAD_CHECKSUM),
            WordError::BadPadding => Cause::of(code::BAD_PADDING),
            WordError::GroupThreshold => Cause::of(code::GROUP_THRESHOLD),
        }
    }
}
