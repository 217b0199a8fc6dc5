//! The answer of a call.
ghost use Rattle.std.specs.Prelude.{◌≡◌, ℕ};
ghost use Rattle.s39_c.specs.Answers.{done, number, counted, created, listed, too_short, out_of_range, high_exponent, refusal, plan_refused, cursor_refused, fingerprint_refused, names_refused, word_refused, repair_refused, refused};

use s39_backup::PlanError;
use s39_drilling::Listing;
use s39_input::{Fault, NoOutput, WrittenLines};
use s39_kdf::BadFingerprint;
use s39_reading::WrittenStatus;
use s39_refusal::Cause;
use s39_repair::RepairError;
use s39_set::{BadCursor, BadNames};
use s39_words::WordError;

/// The code of an output buffer that is too short.
pub(crate) const TOO_SHORT: u8 = 1;

/// The code of a number that is out of range.
pub(crate) const OUT_OF_RANGE: u8 = 2;

/// The code of mnemonics whose iteration exponent is above the caller's maximum.
pub(crate) const HIGH_EXPONENT: u8 = 3;

/// The answer of a call: its code, the details of a refusal, and the number of bytes that the call wrote.
///
/// ```c
/// size_t missing = answer.code == SHAMIR_E_TOO_SHORT ? (size_t)answer.first - sizeof text : 0;
/// ```
#[repr(C)]
#[derive(Clone, Copy, Debug, PartialEq, Eq)]
pub struct ShamirAnswer {
    /// The number of the refusal, or 0 if the call succeeded.
    pub code: u32,
    /// The number of quorums in the listing of a drill with a digest mismatch, or with another secret than the expected
    /// one. It is 0 for other calls.
    pub mismatches: u32,
    /// The number of the refused line, counted from 1, if a call that takes lines refuses one. Otherwise it is 0.
    pub line: u64,
    /// The first detail of a refusal: a position, a number or a group. In a digest mismatch, 16 stands for the digest
    /// of the group shares. After success, `shamir_random_needed` gives its result here, `shamir_create`, `shamir_resplit`,
    /// `shamir_create_from_encrypted` and `shamir_repair` the number of mnemonics, `shamir_drill` the number of listed quorums,
    /// `shamir_quorums` the number of all, and `shamir_status` and `shamir_judge` the number of complete groups. Otherwise it is 0.
    pub first: u64,
    /// The second detail of a refusal. After success, `shamir_drill` gives the offset of the last line in its output
    /// here, in bytes, and `shamir_status` and `shamir_judge` the group threshold. It is 0 otherwise.
    pub second: u64,
    /// The number of bytes that the call wrote. It is 0 on refusal.
    pub written: u64,
}

impl ShamirAnswer {
    /// The answer of a call that succeeded and wrote this number of bytes.
    pub(crate) fn done(written: usize) -> ShamirAnswer
        ensures { result ≡ done written }
    {
        ShamirAnswer {
            code: 0,
            mismatches: 0,
            line: 0,
            first: 0,
            second: 0,
            written: written as u64,
        }
    }

    /// The refusal of an output buffer that is too short. The parameter is the number of bytes that the call needs.
    pub(crate) fn too_short(needed: usize) -> ShamirAnswer
        ensures { result ≡ too_short needed }
    {
        refusal(Cause::new(TOO_SHORT, needed as u64, 0), 0)
    }

    /// The refusal of a number that is out of range.
    pub(crate) fn out_of_range() -> ShamirAnswer
        ensures { result ≡ out_of_range }
    {
        refusal(Cause::of(OUT_OF_RANGE), 0)
    }

    /// The refusal of mnemonics whose iteration exponent, which is the parameter, is above the caller's maximum.
    pub(crate) fn high_exponent(exponent: u8) -> ShamirAnswer
        ensures { result ≡ high_exponent exponent }
    {
        refusal(Cause::new(HIGH_EXPONENT, u64::from(exponent), 0), 0)
    }

    /// The answer of a call that succeeded and whose result is this number.
    pub(crate) fn number(count: usize) -> ShamirAnswer
        ensures { result ≡ number count }
    {
        ShamirAnswer {
            first: count as u64,
            ..ShamirAnswer::done(0)
        }
    }

    /// The answer of a call that counted quorums.
    pub(crate) fn quorums(count: u64) -> ShamirAnswer
        ensures { result ≡ number count }
    {
        ShamirAnswer {
            first: count,
            ..ShamirAnswer::done(0)
        }
    }

    /// The answer of a call that wrote mnemonics, one in each line.
    pub(crate) fn created(put: WrittenLines) -> ShamirAnswer
        ensures { result ≡ created put.written put.lines }
    {
        ShamirAnswer {
            first: put.lines as u64,
            ..ShamirAnswer::done(put.written)
        }
    }

    /// The answer of a call that wrote a listing.
    pub(crate) fn listed(listing: Listing) -> ShamirAnswer
        ensures { result ≡ listed listing }
    {
        ShamirAnswer {
            mismatches: listing.mismatches,
            first: u64::from(listing.listed),
            second: listing.last as u64,
            ..ShamirAnswer::done(listing.written)
        }
    }

    /// The answer of a call that wrote a status. The two details are the numbers of its first line.
    pub(crate) fn counted(told: WrittenStatus) -> ShamirAnswer
        ensures { result ≡ counted told.written told.status }
    {
        ShamirAnswer {
            first: u64::from(told.status.complete),
            second: u64::from(told.status.required),
            ..ShamirAnswer::done(told.written)
        }
    }
}

impl From<PlanError> for ShamirAnswer {
    ghost from_gives = { λ error answer. answer ≡ plan_refused error };

    fn from(error: PlanError) -> ShamirAnswer {
        refusal(error.cause(), 0)
    }
}

impl From<BadCursor> for ShamirAnswer {
    ghost from_gives = { λ error answer. answer ≡ cursor_refused };

    fn from(error: BadCursor) -> ShamirAnswer {
        refusal(error.cause(), 0)
    }
}

impl From<BadFingerprint> for ShamirAnswer {
    ghost from_gives = { λ error answer. answer ≡ fingerprint_refused };

    fn from(error: BadFingerprint) -> ShamirAnswer {
        refusal(error.cause(), 0)
    }
}

impl From<BadNames> for ShamirAnswer {
    ghost from_gives = { λ error answer. answer ≡ names_refused };

    fn from(error: BadNames) -> ShamirAnswer {
        refusal(error.cause(), 0)
    }
}

impl From<WordError> for ShamirAnswer {
    ghost from_gives = { λ error answer. answer ≡ word_refused error };

    fn from(error: WordError) -> ShamirAnswer {
        refusal(error.cause(), 0)
    }
}

impl From<RepairError> for ShamirAnswer {
    ghost from_gives = { λ error answer. answer ≡ repair_refused error };

    fn from(error: RepairError) -> ShamirAnswer {
        refusal(error.cause(), 0)
    }
}

impl From<Fault> for ShamirAnswer {
    ghost from_gives = { λ fault answer. answer ≡ refused fault };

    fn from(fault: Fault) -> ShamirAnswer {
        refusal(fault.refusal.cause(), fault.line.unwrap_or(0))
    }
}

impl From<NoOutput> for ShamirAnswer {
    ghost use Rattle.s39_c.specs.Answers.{without_output};

    ghost from_gives = { λ cause answer. answer ≡ without_output cause };

    fn from(cause: NoOutput) -> ShamirAnswer {
        match cause {
            NoOutput::Refused(fault) => ShamirAnswer::from(fault),
            NoOutput::TooShort(short) => ShamirAnswer::too_short(short.needed),
        }
    }
}

/// The refusal with this cause and this line. The line is 0 if the refusal has none.
fn refusal(cause: Cause, line: u64) -> ShamirAnswer
    ensures { result ≡ refusal cause line }
{
    ShamirAnswer {
        code: u32::from(cause.code),
        mismatches: 0,
        line,
        first: cause.first,
        second: cause.second,
        written: 0,
    }
}
