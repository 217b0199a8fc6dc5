//! The call that gives the text of an answer.
ghost use Rattle.s39_c.specs.Telling.{GivesText};

use crate::answer::{HIGH_EXPONENT, OUT_OF_RANGE, ShamirAnswer, TOO_SHORT};
use crate::lengths::TEXT_BYTES_MAX;
use crate::memory::give;
use s39_refusal::{Cause, code};
use s39_text::RefusalText;
use std::fmt::InlineText;
use thiserror::Error;

/// The text of an answer. A refusal that the program has too has the program's text.
#[derive(Debug, Drop, Error)]
enum AnswerText {
    #[error("done")]
    Done,
    #[error("buffer too short: {0} bytes needed")]
    TooShort(u64),
    #[error("number out of range")]
    OutOfRange,
    #[error("exponent {0} above the maximum")]
    HighExponent(u64),
    #[error("{0}")]
    Refused(RefusalText),
    #[error("unknown answer")]
    Unknown,
}

/// Writes the text of an answer to the start of `text`. The text has no code and no line; the program prints it after
/// these. `written` is its length in bytes, at most 64, and the bytes after it are unchanged.
///
/// The only refusal is 1 (`text` is too short), and `text` is then unchanged.
///
/// ```c
/// char text[SHAMIR_TEXT_BYTES_MAX];
/// shamir_answer told = shamir_text(&answer, text, sizeof text);
/// printf("%.*s", (int)told.written, text);
/// ```
#[unsafe(no_mangle)]
pub extern "C" fn shamir_text(answer: &ShamirAnswer, text: &mut [u8]) -> ShamirAnswer
    ensures { GivesText text.old text.new result }
{
    let said: InlineText<TEXT_BYTES_MAX> = InlineText::of(answer_text(answer));
    give(said.as_str().as_bytes(), text)
}

/// The text of an answer, by its code and details.
fn answer_text(answer: &ShamirAnswer) -> AnswerText {
    let Ok(code) = u8::try_from(answer.code) else {
        return AnswerText::Unknown;
    };
    match code {
        0 => AnswerText::Done,
        TOO_SHORT => AnswerText::TooShort(answer.first),
        OUT_OF_RANGE => AnswerText::OutOfRange,
        HIGH_EXPONENT => AnswerText::HighExponent(answer.first),
        // No call gives these codes, as the library uses no device.
        code::READ_FAILED | code::WRITE_FAILED => AnswerText::Unknown,
        _ => match RefusalText::of(Cause::new(code, answer.first, answer.second)) {
            Some(text) => AnswerText::Refused(text),
            None => AnswerText::Unknown,
        },
    }
}
