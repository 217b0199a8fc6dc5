//! Tests of how many quorums a set has. The counts are from Python: sums of products of `math.comb`.
use crate::expect::equal;
use crate::set::zeros;
use s39_set::{ShareSet, quorum_count_of};
use std::test::Fail;

/// The first groups of a backup, each with its member threshold, and with how many members are at hand. Others have none.
type Groups = [(u8, u8); 16];

/// No share of any group.
const NONE: Groups = [(1, 0); 16];

/// These shares, where so many groups are needed.
fn set_of(group_threshold: u8, groups: &Groups) -> Result<ShareSet, Fail> {
    let mut set = ShareSet::new();
    for group in 0..16 {
        let (member_threshold, members) = groups[usize::from(group)];
        for member in 0..members {
            set.add(zeros(group_threshold, group, member_threshold, member)?)?;
        }
    }
    Ok(set)
}

/// The groups, from the first on.
fn groups_of(first: &[(u8, u8)]) -> Groups {
    let mut groups = NONE;
    for (place, group) in groups.iter_mut().zip(first) {
        *place = *group;
    }
    groups
}

#[test]
fn counts_of_quorums(rt: HostRuntime) -> Result<(), Fail> {
    let rows: [(u8, &[(u8, u8)], u64); 11] = [
        (2, &[(2, 3), (1, 1), (1, 1)], 7),
        (1, &[(8, 16)], 12_870),
        (2, &[(16, 16), (15, 16)], 16),
        (2, &[(2, 3), (2, 1), (1, 2)], 6),
        (4, &[(1, 5), (2, 7), (3, 4), (4, 9), (6, 6), (5, 4)], 79_674),
        (
            5,
            &[(8, 16), (8, 16), (8, 16), (8, 16), (5, 11)],
            12_675_239_180_423_820_000,
        ),
        (
            5,
            &[(8, 16), (8, 16), (8, 16), (8, 16), (5, 12)],
            18_446_744_073_709_551_615,
        ),
        (1, &[(3, 2)], 0),
        (3, &[(2, 3), (2, 1), (1, 2)], 0),
        (16, &[(1, 16)], 0),
        (1, &[], 0),
    ];
    for (group_threshold, first, count) in rows {
        let set = set_of(group_threshold, &groups_of(first))?;
        equal(&rt, quorum_count_of(&set), count);
    }
    Ok(())
}

#[test]
fn counts_of_sixteen_groups(rt: HostRuntime) -> Result<(), Fail> {
    let rows = [
        (3, (2, 3), 15_120),
        (8, (2, 3), 84_440_070),
        (16, (8, 16), 18_446_744_073_709_551_615),
    ];
    for (group_threshold, group, count) in rows {
        let set = set_of(group_threshold, &[group; 16])?;
        equal(&rt, quorum_count_of(&set), count);
    }
    Ok(())
}
