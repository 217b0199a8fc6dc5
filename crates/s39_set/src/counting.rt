//! How many quorums a set has.
ghost use Rattle.std.specs.Prelude.{◌≡◌, ◌+◌, ◌*◌, ◌<◌, ◌∷◌, [], ℕ, List, length, min};
ghost use Rattle.s39_set.specs.Names.{most_groups};
ghost use Rattle.s39_set.specs.Counting.{choices, member_choices, quorum_count, most_counts, most_counted, AreWays};

use crate::limits::{GROUPS, MAX_GROUPS};
use crate::share_set::{ShareSet, are_a_share_set};
use crate::status::group_status_of;

/// How many quorums a set has, each counted once, or `u64::MAX` if there are more. It is 0 if the set has no quorum.
///
/// `laws::one_listing` says that there is a list of all quorums, and `laws::quorums_are_counted` how long it is.
///
/// ```rust
/// // The set has members 0 and 2 of group 0, of which two are needed; one group is needed.
/// assert_eq!(rt; quorum_count_of(&set), 1);
/// ```
pub fn quorum_count_of(set: &ShareSet) -> u64
    ensures { result ≡ min (quorum_count set.now) u64.MAX }
{
    are_a_share_set(set);
    let Some(required) = set.group_threshold() else {
        return 0;
    };
    let mut table = of_no_parts();
    for group in (0..MAX_GROUPS).rev() {
        let uses = member_choices(set, group);
        table = with_one_more(&table, uses);
    }
    table[usize::from(required)]
}

/// In how many ways as many members of a group as its threshold says can be chosen from those at hand.
fn member_choices(set: &ShareSet, group: u8) -> u64
    requires { group < most_groups }
    ensures { result ≡ min (member_choices set.now group) most_counted }
{
    are_a_share_set(set);
    match group_status_of(set, group) {
        Some(status) => choices(status.names.pairs().len(), status.threshold),
        None => 0,
    }
}

/// In how many ways so many things can be chosen, up to `u64::MAX`.
fn choices(things: usize, chosen: u8) -> u64
    requires { chosen < most_counts }
    ensures { result ≡ min (choices things chosen) most_counted }
{
    let mut table = of_no_parts();
    for _ in 0..things {
        table = with_one_more(&table, 1);
    }
    table[usize::from(chosen)]
}

/// The table of no parts: none can be chosen in one way.
fn of_no_parts() -> [u64; GROUPS + 1]
    ensures length { length result ≡ most_counts }
    ensures ways { AreWays result [] }
{
    let mut table = [0; GROUPS + 1];
    table[0] = 1;
    table
}

/// The table with one more part, which can be used in so many ways: it isn't chosen, or it is chosen with one part less.
fn with_one_more(table: &[u64; GROUPS + 1], uses: u64) -> [u64; GROUPS + 1]
    ensures length { length result ≡ most_counts }
    ensures ways { (others : List ℕ) (more : ℕ) → AreWays table.now others
        → uses ≡ min more most_counted → AreWays result (more ∷ others) }
{
    let mut more = *table;
    for chosen in 1..GROUPS + 1 {
        more[chosen] = sum_with_product(table[chosen], uses, table[chosen - 1]);
    }
    more
}

/// The first number and the product of the others, up to `u64::MAX`.
fn sum_with_product(first: u64, second: u64, factor: u64) -> u64
    ensures { result ≡ min (first + second * factor) most_counted }
{
    first.saturating_add(second.saturating_mul(factor))
}
