//! Why a line can't be repaired.
ghost use Rattle.std.specs.Prelude.{◌≡◌};

use s39_refusal::{Cause, code};

/// The first cause for which no mnemonic is given for a line. The causes are tried in the order in which they stand
/// here.
///
/// ```rust
/// let cause = RepairError::WrongWord { position: 7 }.cause();
/// assert_eq!(rt; (cause.code, cause.first, cause.second), (18, 7, 0));
/// ```
#[derive(Clone, Copy, Debug, PartialEq, Eq)]
pub enum RepairError {
    /// A mark stands for no word of the list. The first such mark has this position, counted from 1.
    UnknownWord { position: usize },
    /// No mnemonic has as many words as the line has marks.
    WordCount { words: usize },
    /// More than three places are open. This is their number.
    UnreadableWords { places: usize },
    /// One to three places are open, and no mnemonic fits.
    NoMnemonic,
    /// No place is open, and the checksum isn't valid. If just one word is wrong, it is the word at this position,
    /// counted from 1.
    WrongWord { position: usize },
    /// No place is open, the checksum isn't valid, and more than one word is wrong.
    BadChecksum,
    /// No place is open, and a padding bit before the value isn't zero.
    BadPadding,
    /// No place is open, and the group threshold is above the group count.
    GroupThreshold,
}

impl RepairError {
    ghost use Rattle.s39_repair.specs.Answer.{cause_of};

    /// Returns what the refusal says: its number, and its details. The first detail is the position, the number of
    /// words or the number of open places. It is 0 if there is none, and the second is always 0.
    pub fn cause(&self) -> Cause
        ensures { result ≡ cause_of self.now }
    {
        match self {
            RepairError::UnknownWord { position } => {
                Cause::new(code::UNKNOWN_WORD, *position as u64, 0)
            }
            RepairError::WordCount { words } => Cause::new(code::WORD_COUNT, *words as u64, 0),
            RepairError::UnreadableWords { places } => {
                Cause::new(code::UNREADABLE_WORDS, *places as u64, 0)
            }
            RepairError::NoMnemonic => Cause::of(code::NO_MNEMONIC),
            RepairError::WrongWord { position } => {
                Cause::new(code::WRONG_WORD, *position as u64, 0)
            }
            RepairError::BadChecksum => Cause::of(code::BAD_CHECKSUM),
            RepairError::BadPadding => Cause::of(code::BAD_PADDING),
            RepairError::GroupThreshold => Cause::of(code::GROUP_THRESHOLD),
        }
    }
}
