//! The call that lists words.
ghost use Rattle.std.specs.Prelude.{◌≡◌};
ghost use Rattle.s39_words.specs.Layout.{IsIndex};
ghost use Rattle.s39_words.specs.Printing.{listed_word};
ghost use Rattle.s39_input.specs.Input.{ended_line};
ghost use Rattle.s39_c.specs.Words.{GivesWords};

use crate::answer::ShamirAnswer;
use crate::clearing::WORDS;
use s39_clearing::clear_stack;
use s39_input::{Line, line_of, put_lines};
use s39_words::{word_at, words_beginning};

/// Lists the words of the word list that begin with some letters, in alphabetical order, with a line feed after each.
///
/// Capital letters count as lower-case ones. No word begins with any other byte, and all 1,024 words begin with no
/// letters. The words go to the start of `text`; `written` is their length in bytes, and the bytes after them are
/// unchanged. If no word begins with the letters, the call writes nothing, and its code is 0.
///
/// The only refusal is 1, if `text` is too short for these words. `text` is then unchanged.
///
/// ```c
/// char text[SHAMIR_WORDS_BYTES_MAX];
/// shamir_answer answer = shamir_words("aca", 3, text, sizeof text);
/// // text begins with "academic\n", and answer.written is 9
/// ```
#[unsafe(no_mangle)]
pub extern "C" fn shamir_words(letters: &[u8], text: &mut [u8]) -> ShamirAnswer
    ensures { GivesWords letters.now text.old text.new result }
{
    let answer = words_answer(letters, text);
    let _ = clear_stack::<WORDS>();
    answer
}

/// The answer of `shamir_words`.
#[inline(never)]
fn words_answer(letters: &[u8], text: &mut [u8]) -> ShamirAnswer
    ensures { GivesWords letters.now text.old text.new result }
{
    let words = words_beginning(letters);
    let count = words.end - words.first;
    match put_lines(text, count, &|index| word_line(words.first + index)) {
        Ok(written) => ShamirAnswer::done(written),
        Err(short) => ShamirAnswer::too_short(short.needed),
    }
}

/// The line of the word at an index of the list.
fn word_line(index: u16) -> Line
    requires { IsIndex index }
    ensures { result.items ≡ ended_line (listed_word index) }
{
    line_of(word_at(index))
}
