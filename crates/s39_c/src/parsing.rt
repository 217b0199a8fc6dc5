//! The call that reads a mnemonic.
ghost use Rattle.std.specs.Prelude.{◌≡◌};
ghost use Rattle.s39_c.specs.Parsing.{header_of, GivesShare};

use crate::answer::ShamirAnswer;
use crate::clearing::PARSE;
use crate::memory::give;
use s39_clearing::clear_stack;
use s39_words::{ShareFields, parse};

/// The fields of a mnemonic, except its value.
#[repr(C)]
#[derive(Clone, Copy, Debug, PartialEq, Eq)]
pub struct ShamirShare {
    /// The identifier of the backup, 0 to 32,767.
    pub id: u16,
    /// The extendable flag, 0 or 1.
    pub extendable: u8,
    /// The iteration exponent, 0 to 15.
    pub exponent: u8,
    /// The group index, 0 to 15.
    pub group_index: u8,
    /// The group threshold, 1 to the group count.
    pub group_threshold: u8,
    /// The group count, 1 to 16.
    pub group_count: u8,
    /// The member index, 0 to 15.
    pub member_index: u8,
    /// The member threshold, 1 to 16.
    pub member_threshold: u8,
}

/// Reads one mnemonic, which is a line without its line feed. A line feed in `line` counts as part of a word, and that
/// word is refused with 11. The fields go to `share`. The value of the share goes to the start of `value`; it has an
/// even number of bytes, 16 to 128, and `written` is that number. The bytes after it are unchanged.
///
/// The call refuses with the first of these that applies, and `value` is then unchanged: 11 to 15 (the line isn't a
/// mnemonic, and `share` is unchanged too), 1 (`value` is too short, and `share` has the fields).
///
/// ```c
/// shamir_share share;
/// uint8_t value[SHAMIR_SECRET_BYTES_MAX];
/// shamir_answer answer = shamir_parse(line, strlen(line), &share, value, sizeof value);
/// ```
#[unsafe(no_mangle)]
pub extern "C" fn shamir_parse(
    line: &[u8],
    share: &mut ShamirShare,
    value: &mut [u8],
) -> ShamirAnswer
    ensures { GivesShare line.now share.old share.new value.old value.new result }
{
    let answer = parse_answer(line, share, value);
    let _ = clear_stack::<PARSE>();
    answer
}

/// The answer of `shamir_parse`.
#[inline(never)]
fn parse_answer(line: &[u8], share: &mut ShamirShare, value: &mut [u8]) -> ShamirAnswer
    ensures { GivesShare line.now share.old share.new value.old value.new result }
{
    match parse(line) {
        Ok(read) => {
            let fields = read.fields();
            *share = header_of(fields);
            give(fields.value.as_slice(), value)
        }
        Err(error) => ShamirAnswer::from(error),
    }
}

/// The fields of a share, except its value.
pub(crate) fn header_of(fields: &ShareFields) -> ShamirShare
    ensures { result ≡ header_of fields.now }
{
    ShamirShare {
        id: fields.id,
        extendable: u8::from(fields.extendable),
        exponent: fields.exponent,
        group_index: fields.group_index,
        group_threshold: fields.group_threshold,
        group_count: fields.group_count,
        member_index: fields.member_index,
        member_threshold: fields.member_threshold,
    }
}
