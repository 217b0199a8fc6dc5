//! The texts of refusals, which the program and the library share.
#![tactic(auto)]

use s39_refusal::{Cause, code};
use thiserror::Error;

/// The text of a refusal, without its number. `Display` writes it.
///
/// For example, `UnknownWord(3)` is written as `unknown word 3`.
#[derive(Debug, Drop, Error)]
pub enum RefusalText {
    #[error("unknown word {0}")]
    UnknownWord(u64),
    #[error("{0} words make no share")]
    WordCount(u64),
    #[error("bad checksum")]
    BadChecksum,
    #[error("bad padding")]
    BadPadding,
    #[error("group threshold above group count")]
    GroupThreshold,
    #[error("{0} unreadable words: at most 3")]
    UnreadableWords(u64),
    #[error("no mnemonic has these words")]
    NoMnemonic,
    #[error("bad checksum: if one word is wrong, it is word {0}")]
    WrongWord(u8),
    #[error("other identifier")]
    OtherIdentifier,
    #[error("other extendable flag")]
    OtherExtendable,
    #[error("other exponent")]
    OtherExponent,
    #[error("other group threshold")]
    OtherGroupThreshold,
    #[error("other group count")]
    OtherGroupCount,
    #[error("other length")]
    OtherLength,
    #[error("other member threshold in group {0}")]
    OtherMemberThreshold(u8),
    #[error("conflicting share {group}.{member}")]
    ConflictingShare { group: u8, member: u8 },
    #[error("no shares")]
    NoShares,
    #[error("incomplete: {complete} of {required} groups")]
    Incomplete { complete: u8, required: u8 },
    #[error("bad plan")]
    BadPlan,
    #[error("bad number of groups in plan")]
    PlanGroups,
    #[error("bad number of members in plan group {0}")]
    PlanMembers(u8),
    #[error("one of many in plan group {0}")]
    OneOfMany(u8),
    #[error("bad cursor")]
    BadCursor,
    #[error("passphrase byte {0} not printable")]
    Passphrase(u64),
    #[error("secret of {0} bytes")]
    SecretLength(u64),
    #[error("random bytes: {0} needed")]
    RandomLength(u64),
    #[error("bad fingerprint")]
    BadFingerprint,
    #[error("digest mismatch in group {0}")]
    DigestMismatchInGroup(u8),
    #[error("digest mismatch of groups")]
    DigestMismatchOfGroups,
    #[error("other secret")]
    OtherSecret,
    #[error("cursor is no quorum")]
    NotAQuorum,
    #[error("bad list of names")]
    BadNames,
    #[error("name {0}.{1} not in plan")]
    NotInPlan(u8, u8),
    #[error("other plan")]
    OtherPlan,
    #[error("cannot tell {0}.{1}: {2} of {3} members, {4} of {5} other groups")]
    Undetermined(u8, u8, u8, u8, u8, u8),
    #[error("backup isn't extendable")]
    NotExtendable,
    #[error("same identifier")]
    SameIdentifier,
    #[error("line too long")]
    LineTooLong,
    #[error("read failed")]
    ReadFailed,
    #[error("write failed")]
    WriteFailed,
}

impl RefusalText {
    /// Gives the text of a refusal, by its number and details. Gives `None` if no refusal has this number, or if a
    /// detail is out of range for it.
    ///
    /// For example, `Cause::of(code::BAD_CHECKSUM)` gives `BadChecksum`.
    pub fn of(cause: Cause) -> Option<RefusalText> {
        let number = cause.first;
        let group = u8::try_from(cause.first).ok();
        let second = u8::try_from(cause.second).ok();
        Some(match cause.code {
            code::UNKNOWN_WORD => RefusalText::UnknownWord(number),
            code::WORD_COUNT => RefusalText::WordCount(number),
            code::BAD_CHECKSUM => RefusalText::BadChecksum,
            code::BAD_PADDING => RefusalText::BadPadding,
            code::GROUP_THRESHOLD => RefusalText::GroupThreshold,
            code::UNREADABLE_WORDS => RefusalText::UnreadableWords(number),
            code::NO_MNEMONIC => RefusalText::NoMnemonic,
            code::WRONG_WORD => RefusalText::WrongWord(group?),
            code::OTHER_IDENTIFIER => RefusalText::OtherIdentifier,
            code::OTHER_EXTENDABLE => RefusalText::OtherExtendable,
            code::OTHER_EXPONENT => RefusalText::OtherExponent,
            code::OTHER_GROUP_THRESHOLD => RefusalText::OtherGroupThreshold,
            code::OTHER_GROUP_COUNT => RefusalText::OtherGroupCount,
            code::OTHER_LENGTH => RefusalText::OtherLength,
            code::OTHER_MEMBER_THRESHOLD => RefusalText::OtherMemberThreshold(group?),
            code::CONFLICTING_SHARE => RefusalText::ConflictingShare {
                group: group?,
                member: second?,
            },
            code::NO_SHARES => RefusalText::NoShares,
            code::INCOMPLETE => RefusalText::Incomplete {
                complete: group?,
                required: second?,
            },
            code::BAD_PLAN => RefusalText::BadPlan,
            code::PLAN_GROUPS => RefusalText::PlanGroups,
            code::PLAN_MEMBERS => RefusalText::PlanMembers(group?),
            code::ONE_OF_MANY => RefusalText::OneOfMany(group?),
            code::PASSPHRASE => RefusalText::Passphrase(number),
            code::SECRET_LENGTH => RefusalText::SecretLength(number),
            code::RANDOM_LENGTH => RefusalText::RandomLength(number),
            code::BAD_FINGERPRINT => RefusalText::BadFingerprint,
            code::DIGEST_MISMATCH if number == code::OF_GROUPS => {
                RefusalText::DigestMismatchOfGroups
            }
            code::DIGEST_MISMATCH => RefusalText::DigestMismatchInGroup(group?),
            code::OTHER_SECRET => RefusalText::OtherSecret,
            code::BAD_CURSOR => RefusalText::BadCursor,
            code::NOT_A_QUORUM => RefusalText::NotAQuorum,
            code::BAD_NAMES => RefusalText::BadNames,
            code::NOT_IN_PLAN => RefusalText::NotInPlan(group?, second?),
            code::OTHER_PLAN => RefusalText::OtherPlan,
            code::UNDETERMINED => undetermined(cause)?,
            code::NOT_EXTENDABLE => RefusalText::NotExtendable,
            code::SAME_IDENTIFIER => RefusalText::SameIdentifier,
            code::LINE_TOO_LONG => RefusalText::LineTooLong,
            code::READ_FAILED => RefusalText::ReadFailed,
            code::WRITE_FAILED => RefusalText::WriteFailed,
            _ => return None,
        })
    }
}

/// Gives the text of the refusal of a share that isn't determined. Gives `None` if the details aren't a name and four
/// counts.
fn undetermined(cause: Cause) -> Option<RefusalText> {
    let [group, member] = u16::try_from(cause.first).ok()?.to_be_bytes();
    let [members, threshold, others, required] = u32::try_from(cause.second).ok()?.to_be_bytes();
    Some(RefusalText::Undetermined(group, member, members, threshold, others, required))
}

/// A refusal as the program prints it: the line if there is one, the number and the text.
///
/// For example, an unknown word is printed as `shamir: line 2: 11 unknown word 3`.
#[derive(Debug, Drop, Error)]
pub enum FaultText {
    #[error("shamir: line {line}: {code} {text}")]
    AtLine {
        line: u64,
        code: u8,
        text: RefusalText,
    },
    #[error("shamir: {code} {text}")]
    Anywhere {
        code: u8,
        text: RefusalText,
    },
    #[error("shamir: {code}")]
    WithoutText {
        code: u8,
    },
}

impl FaultText {
    /// Makes the message of a refusal, at this line if there is one. If there is no text for the number and the
    /// details, the message has the number alone.
    pub fn of(line: Option<u64>, cause: Cause) -> FaultText {
        let code = cause.code;
        match (line, RefusalText::of(cause)) {
            (Some(line), Some(text)) => FaultText::AtLine { line, code, text },
            (None, Some(text)) => FaultText::Anywhere { code, text },
            (_, None) => FaultText::WithoutText { code },
        }
    }
}
