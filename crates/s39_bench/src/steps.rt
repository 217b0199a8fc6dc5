//! Steps through the quorums of sets in which every group needs eight of its sixteen members.

use s39_kdf::check_secret;
use s39_set::{Looks, ShareSet, first, next_after};
use s39_words::{Share, ShareFields};

/// The members of each group, of which half are needed.
const MEMBERS: u8 = 16;

const SHARE_BYTES: usize = 32;

/// A set of which this many groups are needed, each with all its members: `None` for no group or more than 16.
fn set_of(groups: u8) -> Option<ShareSet> {
    let mut set = ShareSet::new();
    for group in 0..groups {
        for member_index in 0..MEMBERS {
            let share = Share::new(ShareFields {
                id: 0,
                extendable: false,
                exponent: 0,
                group_index: group,
                group_threshold: groups,
                group_count: groups,
                member_index,
                member_threshold: MEMBERS / 2,
                value: check_secret(&[0; SHARE_BYTES]).ok()?,
            })?;
            set.add(share).ok()?;
        }
    }
    Some(set)
}

/// Takes as many steps as asked for, from the first quorum of a set on, and from it again after the last, and answers
/// how many looks they took. `None` for no group or more than 16.
pub fn looks_of_steps(groups: u8, steps: u32) -> Option<u64> {
    let set = set_of(groups)?;
    let mut quorum = first(&set).ok()?;
    let mut sum = 0u64;
    for _ in 0..steps {
        let mut looks = Looks::new();
        quorum = match next_after(&set, &quorum, &mut looks).ok()? {
            Some(next) => next,
            None => first(&set).ok()?,
        };
        sum = sum.saturating_add(looks.count());
    }
    Some(sum)
}
