//! Tests of `s39_set`, and the examples of its doc comments.
use crate::expect::{equal, holds};
use s39_kdf::check_secret;
use s39_set::{
    Added, BadCursor, BadNames, Looks, SetError, SetLack, ShareSet, Status, first, group_status_of,
    has, is_quorum, next_after, parse_names, parse_quorum, quorum_count_of, share_at, status_of,
};
use s39_words::{Share, ShareFields, parse};
use std::test::Fail;

// Two mnemonics that are published for SLIP-0039: members 0 and 2 of a group, of which two are needed.
const MEMBER_0: &[u8] =
    b"shadow pistol academic acid actress prayer class unknown daughter sweater depict flip twice unkind craft early superior advocate guest smoking";

const MEMBER_2: &[u8] =
    b"shadow pistol academic always adequate wildlife fancy gross oasis cylinder mustang wrist rescue view short owner flip making coding armed";

/// The share value of `MEMBER_2`.
const VALUE_2: &[u8] = b"\x08\xfb\x14\xb6\x6e\x69\x2e\x25\xdf\xe2\xed\xf5\x32\x89\xed\x62";

fn share(fields: ShareFields) -> Result<Share, Fail> {
    match Share::new(fields) {
        Some(share) => Ok(share),
        None => Err(Fail::new("no share has these fields")),
    }
}

/// The fields of member 2 of a backup of one group, of which two members are needed.
fn member_2(value: &[u8]) -> Result<ShareFields, Fail> {
    Ok(ShareFields {
        id: 25653,
        extendable: false,
        exponent: 2,
        group_index: 0,
        group_threshold: 1,
        group_count: 1,
        member_index: 2,
        member_threshold: 2,
        value: check_secret(value)?,
    })
}

/// A share of 16 zero bytes, of a backup of sixteen groups.
pub(crate) fn zeros(
    group_threshold: u8,
    group: u8,
    member_threshold: u8,
    member: u8,
) -> Result<Share, Fail> {
    share(ShareFields {
        id: 0,
        extendable: false,
        exponent: 0,
        group_index: group,
        group_threshold,
        group_count: 16,
        member_index: member,
        member_threshold,
        value: check_secret(&[0; 16])?,
    })
}

/// Groups 0 and 3 of member threshold 2 with members 0, 5, 15 and 1, and group 15 of member threshold 1 with
/// members 3 and 4.
pub(crate) fn three_groups(group_threshold: u8) -> Result<ShareSet, Fail> {
    let mut set = ShareSet::new();
    for (group, member_threshold, member) in [
        (15, 1, 4),
        (0, 2, 15),
        (3, 2, 1),
        (0, 2, 0),
        (15, 1, 3),
        (0, 2, 5),
    ] {
        set.add(zeros(group_threshold, group, member_threshold, member)?)?;
    }
    Ok(set)
}

/// The examples that stand above the functions.
#[test]
fn examples_of_adding(rt: HostRuntime) -> Result<(), Fail> {
    let mut set = ShareSet::new();
    equal(&rt, set.add(parse(MEMBER_0)?), Ok(Added::New));
    equal(&rt, set.add(parse(MEMBER_2)?), Ok(Added::New));
    equal(&rt, set.add(parse(MEMBER_2)?), Ok(Added::Repeat));
    Ok(())
}

/// The set of the other examples.
fn two_members() -> Result<ShareSet, Fail> {
    let mut set = ShareSet::new();
    set.add(parse(MEMBER_0)?)?;
    set.add(parse(MEMBER_2)?)?;
    Ok(set)
}

#[test]
fn examples_of_shares(rt: HostRuntime) -> Result<(), Fail> {
    let set = two_members()?;
    equal(
        &rt,
        share_at(&set, 0, 2).map(|share| share.member_threshold()),
        Some(2),
    );
    holds(&rt, share_at(&set, 0, 1).is_none());
    Ok(())
}

#[test]
fn examples_of_looks(rt: HostRuntime) -> Result<(), Fail> {
    let set = two_members()?;
    let mut looks = Looks::new();
    holds(&rt, has(&set, 0, 2, &mut looks));
    holds(&rt, !has(&set, 0, 1, &mut looks));
    equal(&rt, looks.count(), 2);
    Ok(())
}

#[test]
fn examples_of_quorums(rt: HostRuntime) -> Result<(), Fail> {
    let set = two_members()?;
    let mut looks = Looks::new();
    holds(&rt, is_quorum(&set, &parse_quorum(b"0.0+0.2")?, &mut looks));
    holds(&rt, !is_quorum(&set, &parse_quorum(b"0.0")?, &mut looks));
    Ok(())
}

#[test]
fn examples_of_steps(rt: HostRuntime) -> Result<(), Fail> {
    let set = two_members()?;
    equal(&rt, first(&set)?.pairs(), [(0, 0), (0, 2)].as_slice());
    holds(
        &rt,
        matches!(first(&ShareSet::new()), Err(SetLack::NoShares)),
    );
    let mut looks = Looks::new();
    holds(&rt, next_after(&set, &first(&set)?, &mut looks)?.is_none());
    Ok(())
}

#[test]
fn examples_of_names(rt: HostRuntime) -> Result<(), Fail> {
    equal(
        &rt,
        parse_names(b"0.2+0.10")?.pairs(),
        [(0, 2), (0, 10)].as_slice(),
    );
    holds(&rt, matches!(parse_names(b"0.10+0.2"), Err(BadNames)));
    equal(
        &rt,
        parse_quorum(b"0.0+0.2")?.pairs(),
        [(0, 0), (0, 2)].as_slice(),
    );
    holds(&rt, matches!(parse_quorum(b"0.16"), Err(BadCursor)));
    Ok(())
}

#[test]
fn examples_of_what_is_at_hand(rt: HostRuntime) -> Result<(), Fail> {
    let set = two_members()?;
    equal(
        &rt,
        status_of(&set),
        Some(Status {
            complete: 1,
            required: 1,
        }),
    );
    equal(
        &rt,
        group_status_of(&set, 0).map(|status| status.threshold),
        Some(2),
    );
    holds(&rt, group_status_of(&set, 1).is_none());
    equal(&rt, quorum_count_of(&set), 1);
    Ok(())
}

#[test]
fn a_share_again_is_a_repeat(rt: HostRuntime) -> Result<(), Fail> {
    let mut set = ShareSet::new();
    for added in [Added::New, Added::Repeat] {
        equal(&rt, set.add(share(member_2(&[7; 16])?)?), Ok(added));
        equal(
            &rt,
            first(&set).err(),
            Some(SetLack::Incomplete {
                complete: 0,
                required: 1,
            }),
        );
    }
    let member_0 = ShareFields {
        member_index: 0,
        ..member_2(&[9; 16])?
    };
    equal(&rt, set.add(share(member_0)?), Ok(Added::New));
    equal(&rt, first(&set)?.pairs(), [(0, 0), (0, 2)].as_slice());
    Ok(())
}

#[test]
fn refused_shares(rt: HostRuntime) -> Result<(), Fail> {
    let mut set = ShareSet::new();
    set.add(parse(MEMBER_2)?)?;
    let fields = || member_2(VALUE_2);
    for (fields, error) in [
        (
            ShareFields {
                id: 0,
                ..member_2(&[0; 18])?
            },
            SetError::OtherIdentifier,
        ),
        (
            ShareFields {
                exponent: 3,
                ..fields()?
            },
            SetError::OtherExponent,
        ),
        (
            ShareFields {
                group_threshold: 2,
                group_count: 2,
                ..fields()?
            },
            SetError::OtherGroupThreshold,
        ),
        (
            ShareFields {
                group_count: 2,
                ..fields()?
            },
            SetError::OtherGroupCount,
        ),
        (member_2(&[0; 18])?, SetError::OtherLength),
        (
            ShareFields {
                member_index: 1,
                member_threshold: 3,
                ..fields()?
            },
            SetError::OtherMemberThreshold { group: 0 },
        ),
        (
            member_2(b"\x08\xfb\x14\xb6\x6e\x69\x2e\x25\xdf\xe2\xed\xf5\x32\x89\xed\x63")?,
            SetError::ConflictingShare {
                group: 0,
                member: 2,
            },
        ),
    ] {
        equal(&rt, set.add(share(fields)?), Err(error));
    }
    equal(&rt, set.add(share(fields()?)?), Ok(Added::Repeat));
    Ok(())
}

#[test]
fn first_quorums(rt: HostRuntime) -> Result<(), Fail> {
    equal(&rt, first(&ShareSet::new()).err(), Some(SetLack::NoShares));
    equal(
        &rt,
        first(&three_groups(1)?)?.pairs(),
        [(0, 0), (0, 5)].as_slice(),
    );
    equal(
        &rt,
        first(&three_groups(2)?)?.pairs(),
        [(0, 0), (0, 5), (15, 3)].as_slice(),
    );
    equal(
        &rt,
        first(&three_groups(3)?).err(),
        Some(SetLack::Incomplete {
            complete: 2,
            required: 3,
        }),
    );
    Ok(())
}

#[test]
fn quorums_of_another_set(rt: HostRuntime) -> Result<(), Fail> {
    let quorum = first(&three_groups(2)?)?;
    let mut looks = Looks::new();
    holds(&rt, is_quorum(&three_groups(2)?, &quorum, &mut looks));
    let names = quorum.pairs().len() as u64;
    holds(&rt, names <= looks.count() && looks.count() <= 1024);
    holds(&rt, !is_quorum(&three_groups(1)?, &quorum, &mut looks));
    holds(&rt, !is_quorum(&ShareSet::new(), &quorum, &mut looks));
    Ok(())
}

#[test]
fn shares_by_name(rt: HostRuntime) -> Result<(), Fail> {
    let set = three_groups(1)?;
    for (group, member, there) in [
        (0, 5, true),
        (5, 0, false),
        (15, 4, true),
        (0, 16, false),
        (16, 0, false),
    ] {
        let mut looks = Looks::new();
        equal(&rt, share_at(&set, group, member).is_some(), there);
        equal(&rt, has(&set, group, member, &mut looks), there);
        equal(&rt, looks.count(), 1);
        looks.turn();
        equal(&rt, looks.count(), 2);
    }
    equal(
        &rt,
        share_at(&set, 15, 4).map(|share| share.member_index()),
        Some(4),
    );
    Ok(())
}

#[test]
fn codes_of_causes(rt: HostRuntime) {
    let causes = [
        SetError::OtherIdentifier,
        SetError::OtherExtendable,
        SetError::OtherExponent,
        SetError::OtherGroupThreshold,
        SetError::OtherGroupCount,
        SetError::OtherLength,
        SetError::OtherMemberThreshold { group: 3 },
        SetError::ConflictingShare {
            group: 3,
            member: 1,
        },
    ];
    equal(
        &rt,
        causes.map(|cause| cause.cause().code),
        [21, 22, 23, 24, 25, 26, 27, 28],
    );
    equal(&rt, SetLack::NoShares.cause().code, 29);
    equal(
        &rt,
        SetLack::Incomplete {
            complete: 0,
            required: 1,
        }
        .cause()
        .code,
        30,
    );
}

#[test]
fn texts_that_are_no_names(rt: HostRuntime) -> Result<(), Fail> {
    for text in [
        "0.2+0.0", "0.0+0.0", "0.00", "16.0", "", "0.16", "00.0", "0", "0.", ".0", "0.0+", "+0.0",
        "0.0 ", "0.1.2", "0.10+0.2", "1.0+0.0", "0.-1", "0,0", "0.0++0.1", "0.256",
    ] {
        holds(&rt, matches!(parse_quorum(text.as_bytes()), Err(BadCursor)));
        holds(&rt, matches!(parse_names(text.as_bytes()), Err(BadNames)));
    }
    let text = b"0.2+0.10+9.15+10.0+15.9";
    let names = [(0, 2), (0, 10), (9, 15), (10, 0), (15, 9)];
    equal(&rt, parse_quorum(text)?.pairs(), names.as_slice());
    equal(&rt, parse_names(text)?.pairs(), names.as_slice());
    equal(&rt, BadCursor.cause().code, 61);
    equal(&rt, BadNames.cause().code, 63);
    Ok(())
}

#[test]
fn what_is_at_hand(rt: HostRuntime) -> Result<(), Fail> {
    equal(&rt, status_of(&ShareSet::new()), None);
    holds(&rt, group_status_of(&ShareSet::new(), 0).is_none());
    for (required, enough) in [(1, true), (2, true), (3, false)] {
        let mut set = three_groups(required)?;
        let status = Status {
            complete: 2,
            required,
        };
        equal(&rt, set.add(zeros(required, 3, 2, 1)?), Ok(Added::Repeat));
        equal(&rt, status_of(&set), Some(status));
        equal(&rt, status.is_enough(), enough);
        for (group, threshold, names) in [
            (0, 2, [(0, 0), (0, 5), (0, 15)].as_slice()),
            (3, 2, [(3, 1)].as_slice()),
            (15, 1, [(15, 3), (15, 4)].as_slice()),
        ] {
            let Some(status) = group_status_of(&set, group) else {
                return Err(Fail::new("the group has shares"));
            };
            equal(&rt, (status.group, status.threshold), (group, threshold));
            equal(&rt, status.names.pairs(), names);
        }
        for group in [1, 2, 4, 14] {
            holds(&rt, group_status_of(&set, group).is_none());
        }
    }
    Ok(())
}
