//! The mnemonic that fits, for each value of the extendable flag.
ghost use Rattle.std.specs.Prelude.{◌≡◌, ℕ, ◌<◌, ◌↔◌, List, All, IsTrue, IfSome, MatchOption, length, map};
ghost use Rattle.s39_words.specs.Layout.{IsIndex};
ghost use Rattle.s39_words.specs.Reading.{IsWordCount};
ghost use Rattle.s39_words.specs.declared.share.ShareFields.{ShareFields};
ghost use Rattle.s39_repair.specs.Marks.{IsRange, HasWords, FitsRanges, IsClosedElsewhere};
ghost use Rattle.s39_repair.specs.Sums.{ArePlaces};

use crate::solving::{Indices, Places, lost_words};
use s39_words::{Share, WordRange, parse, text_of};

/// A mnemonic that fits: its share, and its words.
#[derive(Drop)]
pub(crate) struct Candidate {
    pub(crate) share: Share,
    pub(crate) words: Indices,
}

/// The first word of each range.
pub(crate) fn first_words(ranges: &[WordRange]) -> Indices
    requires all { All IsRange ranges.now }
    requires count { IsWordCount (length ranges.now) }
    ensures words { result.items ≡ map (λ range. range.first) ranges.now }
    ensures in_list { All IsIndex result.items }
{
    let mut words = Indices::new();
    for range in ranges {
        words.push(range.first);
    }
    words
}

/// Whether each word is in its range.
fn are_in_ranges(ranges: &[WordRange], words: &[u16]) -> bool
    requires { length ranges.now ≡ length words.now }
    ensures { IsTrue result ↔ HasWords ranges.now words.now }
{
    for (i, range) in ranges.iter().enumerate() {
        if words[i] < range.first || range.end <= words[i] {
            return false;
        }
    }
    true
}

/// The only mnemonic with this flag that fits the ranges, if there is one. Each range has one word, but at three
/// places.
pub(crate) fn fitting(ranges: &[WordRange], extendable: bool, places: Places) -> Option<Candidate>
    requires all { All IsRange ranges.now }
    requires count { IsWordCount (length ranges.now) }
    requires places { ArePlaces places.first places.second places.third }
    requires closed { IsClosedElsewhere ranges.now places.first places.second places.third }
    ensures fits { IfSome result (λ found. FitsRanges ranges.now found.words.items found.share) }
    ensures flag { IfSome result (λ found. found.share.extendable ≡ extendable) }
    ensures only { (mnemonic : List ℕ) (share : ShareFields) → FitsRanges ranges.now mnemonic share
        → share.extendable ≡ extendable
        → MatchOption result ⊥ (λ found. found.words.items ≡ mnemonic) }
{
    let first = first_words(ranges);
    let words = lost_words(extendable, &first, places);
    if !are_in_ranges(ranges, &words) {
        return None;
    }
    let Ok(share) = parse(&text_of(&words)) else {
        return None;
    };
    if share.extendable() == extendable {
        Some(Candidate { share, words })
    } else {
        None
    }
}
