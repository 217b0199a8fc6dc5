//! The marks of a line, as ranges of the word list.
ghost use Rattle.std.specs.Prelude.{IfOk, IfErr, Err};
ghost use Rattle.s39_repair.specs.Answer.{Repairs};
ghost use Rattle.s39_repair.specs.Marks.{AreMarks};

use crate::mark::{choice_of, first_mark};
use crate::repair_error::RepairError;
use arrayvec::ArrayVec;
use s39_words::{MAX_WORDS, WordRange, after_separators, is_word_count};

/// The words for which the marks of a line stand.
pub(crate) type Marks = ArrayVec<WordRange, MAX_WORDS>;

/// The marks of a line, if each stands for a word, and a mnemonic may have as many.
pub(crate) fn marks_of(line: &[u8]) -> Result<Marks, RepairError>
    ensures found { IfOk result (λ marks. AreMarks line.now marks.items) }
    ensures refused { IfErr result (λ e. Repairs line.now (Err e)) }
{
    let mut marks = Marks::new();
    let mut words = 0;
    let mut rest = after_separators(line);
    while !rest.is_empty() {
        words += 1;
        let first = first_mark(rest);
        let range = choice_of(first.mark);
        if range.first == range.end {
            return Err(RepairError::UnknownWord { position: words });
        }
        // Marks beyond the most words that a mnemonic may have are only counted.
        let _ = marks.try_push(range);
        rest = after_separators(first.rest);
    }
    if is_word_count(words) {
        Ok(marks)
    } else {
        Err(RepairError::WordCount { words })
    }
}
