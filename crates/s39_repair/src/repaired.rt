//! The mnemonics that fit a line of marks.
ghost use Rattle.std.specs.Prelude.{◌≡◌, ℕ, ◌<◌, List, All, Some, None, IfSome, length, if◌then◌else◌};
ghost use Rattle.std.specs.Cmp.Lexicographic.{slice_cmp};
ghost use Rattle.std.specs.Option.{ForNone};
ghost use Rattle.std.specs.Ordering.{nat_cmp, is_lt};
ghost use Rattle.s39_words.specs.Reading.{IsWordCount};
ghost use Rattle.s39_words.specs.declared.share.ShareFields.{ShareFields};
ghost use Rattle.s39_repair.specs.Answer.{AreAll};
ghost use Rattle.s39_repair.specs.Marks.{IsRange, FitsRanges, IsClosedElsewhere};
ghost use Rattle.s39_repair.specs.Sums.{ArePlaces};

use crate::candidate::{Candidate, fitting};
use crate::solving::Places;
use s39_words::{Share, WordRange};

/// The shares whose mnemonics fit a line: one, or two in ascending order of their words' indices.
#[derive(Debug, Drop)]
pub struct Repaired {
    /// The share whose mnemonic comes first.
    pub first: Share,
    /// The other share, if two mnemonics fit.
    pub second: Option<Share>,
}

/// The share of the only mnemonic that fits.
fn alone(only: Candidate) -> Repaired
    ensures { result ≡ record { first = only.share; second = None } }
{
    Repaired {
        first: only.share,
        second: None,
    }
}

/// Two shares in the order of their words.
fn in_order(one: Candidate, other: Candidate) -> Repaired
    ensures { result ≡ (if is_lt (slice_cmp nat_cmp one.words.items other.words.items)
        then record { first = one.share; second = Some other.share }
        else record { first = other.share; second = Some one.share }) }
{
    if one.words.as_slice().cmp(other.words.as_slice()).is_lt() {
        Repaired {
            first: one.share,
            second: Some(other.share),
        }
    } else {
        Repaired {
            first: other.share,
            second: Some(one.share),
        }
    }
}

/// The shares whose mnemonics fit the ranges. Each range has one word, but at three places.
pub(crate) fn all_fitting(ranges: &[WordRange], places: Places) -> Option<Repaired>
    requires all { All IsRange ranges.now }
    requires count { IsWordCount (length ranges.now) }
    requires places { ArePlaces places.first places.second places.third }
    requires closed { IsClosedElsewhere ranges.now places.first places.second places.third }
    ensures some { IfSome result (λ repaired. AreAll (FitsRanges ranges.now) repaired) }
    ensures none { ForNone result ((mnemonic : List ℕ) (share : ShareFields)
        → ¬ FitsRanges ranges.now mnemonic share) }
{
    let plain = fitting(ranges, false, places);
    let extendable = fitting(ranges, true, places);
    let Some(one) = plain else {
        let Some(other) = extendable else {
            return None;
        };
        return Some(alone(other));
    };
    let Some(other) = extendable else {
        return Some(alone(one));
    };
    Some(in_order(one, other))
}
