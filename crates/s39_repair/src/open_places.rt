//! The open places of a line.
ghost use Rattle.std.specs.Prelude.{◌≡◌, ℕ, suc, false, ◌+◌, ◌<◌, ◌≤◌, ◌⊎◌, All, IfOk, IfErr, count_by, drop, length, slice_index_or};
ghost use Rattle.s39_words.specs.Layout.{most_words};
ghost use Rattle.s39_words.specs.declared.prefix.WordRange.{WordRange as Range};
ghost use Rattle.s39_repair.specs.Answer.{most_open};
ghost use Rattle.s39_repair.specs.Marks.{is_open_range, IsRange, IsClosedElsewhere};
ghost use Rattle.s39_repair.specs.Sums.{ArePlaces};

use crate::solving::Places;
use s39_words::WordRange;

/// Whether a range has more than one word.
fn is_open(range: &WordRange) -> bool
    requires { IsRange range.now }
    ensures { result ≡ is_open_range range.now }
{
    range.end - range.first > 1
}

/// How many ranges have more than one word.
fn count_open(ranges: &[WordRange]) -> usize
    requires { All IsRange ranges.now }
    ensures { result ≡ count_by is_open_range ranges.now }
{
    let mut count = 0;
    for range in ranges {
        if is_open(range) {
            count += 1;
        }
    }
    count
}

/// The first open place that isn't before this one. If there is none, the place right behind the last range, or this
/// one if it is further behind.
fn next_open(ranges: &[WordRange], from: usize) -> usize
    requires { All IsRange ranges.now }
    ensures from { from ≤ result }
    ensures near { (result ≤ length ranges.now) ⊎ (result ≡ from) }
    ensures closed { (p : ℕ) (d : Range) → from ≤ p → p < result → p < length ranges.now
        → is_open_range (slice_index_or ranges.now p d) ≡ false }
    ensures open { result < length ranges.now
        → count_by is_open_range (drop from ranges.now)
        ≡ suc (count_by is_open_range (drop (suc result) ranges.now)) }
    ensures none { length ranges.now ≤ result → count_by is_open_range (drop from ranges.now) ≡ 0 }
{
    let mut i = from;
    while i < ranges.len() && !is_open(&ranges[i]) {
        i += 1;
    }
    i
}

/// Three places, among them all open ones, or the number of open places if there are more than three.
pub(crate) fn open_places(ranges: &[WordRange]) -> Result<Places, usize>
    requires all { All IsRange ranges.now }
    requires short { length ranges.now ≤ most_words }
    ensures places { IfOk result (λ places. ArePlaces places.first places.second places.third) }
    ensures closed { IfOk result (λ places.
        IsClosedElsewhere ranges.now places.first places.second places.third) }
    ensures few { IfOk result (λ places. count_by is_open_range ranges.now ≤ most_open) }
    ensures some { IfOk result (λ places. places.first < length ranges.now
        → 1 ≤ count_by is_open_range ranges.now) }
    ensures none { IfOk result (λ places. length ranges.now ≤ places.first
        → count_by is_open_range ranges.now ≡ 0) }
    ensures many { IfErr result (λ count. (count ≡ count_by is_open_range ranges.now)
        × (most_open < count)) }
{
    let first = next_open(ranges, 0);
    let second = next_open(ranges, first + 1);
    let third = next_open(ranges, second + 1);
    if next_open(ranges, third + 1) < ranges.len() {
        return Err(count_open(ranges));
    }
    Ok(Places {
        first,
        second,
        third,
    })
}
