//! Tests of the steps of `s39_set` from a quorum to the next.
use crate::expect::{equal, holds};
use crate::set::{three_groups, zeros};
use s39_set::{Looks, NotAQuorum, ShareSet, first, next_after, parse_quorum};
use std::alloc::Allocator;
use std::process::Abort;
use std::test::Fail;

/// Group 0 of member threshold 2 with three members, and groups 1 and 2 of one, of which two groups are needed.
fn three_and_one_and_one() -> Result<ShareSet, Fail> {
    let mut set = ShareSet::new();
    for (group, member_threshold, member) in [
        (1, 1, 0),
        (0, 2, 2),
        (2, 1, 0),
        (0, 2, 1),
        (0, 2, 0),
    ] {
        set.add(zeros(2, group, member_threshold, member)?)?;
    }
    Ok(set)
}

/// Sixteen groups of sixteen members, of each of which eight are needed.
fn eight_of_sixteen() -> Result<ShareSet, Fail> {
    let mut set = ShareSet::new();
    for group in 0..16 {
        add_sixteen(&mut set, group)?;
    }
    Ok(set)
}

fn add_sixteen(set: &mut ShareSet, group: u8) -> Result<(), Fail> {
    for member in 0..16 {
        set.add(zeros(16, group, 8, member)?)?;
    }
    Ok(())
}

/// Steps through a set from its first quorum on, and compares the quorums with these written forms.
fn walk(rt: &impl Abort, set: &ShareSet, texts: &[&str]) -> Result<(), Fail> {
    let mut quorum = Some(first(set)?);
    for text in texts {
        let Some(current) = quorum else {
            return Err(Fail::new("a quorum too few"));
        };
        equal(rt, current.pairs(), parse_quorum(text.as_bytes())?.pairs());
        let mut looks = Looks::new();
        quorum = next_after(set, &current, &mut looks)?;
        holds(rt, looks.count() <= 16384);
    }
    holds(rt, quorum.is_none());
    Ok(())
}

#[test]
fn every_quorum_in_order(rt: HostRuntime) -> Result<(), Fail> {
    walk(
        &rt,
        &three_groups(1)?,
        &["0.0+0.5", "0.0+0.15", "0.5+0.15", "15.3", "15.4"],
    )?;
    walk(
        &rt,
        &three_groups(2)?,
        &[
            "0.0+0.5+15.3",
            "0.0+0.5+15.4",
            "0.0+0.15+15.3",
            "0.0+0.15+15.4",
            "0.5+0.15+15.3",
            "0.5+0.15+15.4",
        ],
    )?;
    walk(
        &rt,
        &three_and_one_and_one()?,
        &[
            "0.0+0.1+1.0",
            "0.0+0.1+2.0",
            "0.0+0.2+1.0",
            "0.0+0.2+2.0",
            "0.1+0.2+1.0",
            "0.1+0.2+2.0",
            "1.0+2.0",
        ],
    )
}

#[test]
fn names_that_are_no_quorum(rt: HostRuntime) -> Result<(), Fail> {
    let set = three_groups(1)?;
    for text in ["0.0", "0.0+0.5+15.3", "3.1", "0.0+0.1", "15.3+15.4"] {
        let mut looks = Looks::new();
        let next = next_after(&set, &parse_quorum(text.as_bytes())?, &mut looks);
        holds(&rt, matches!(next, Err(NotAQuorum)));
        holds(&rt, looks.count() <= 16384);
    }
    equal(&rt, NotAQuorum.cause().code, 62);
    Ok(())
}

/// The written form of eight members of each of sixteen groups, from one on.
fn eight_from<A: Allocator>(alloc: A, from: u8) -> Result<String<A>, Fail> {
    let mut text = String::new(alloc);
    for name in 0..128u8 {
        if name > 0 {
            text.push('+')?;
        }
        let group = name / 8;
        let member = from.min(8) + name % 8;
        write!(text, "{group}.{member}")?;
    }
    Ok(text)
}

#[test]
fn steps_of_the_largest_set(rt: HostRuntime) -> Result<(), Fail> {
    let set = eight_of_sixteen()?;
    let mut quorum = first(&set)?;
    equal(
        &rt,
        quorum.pairs(),
        parse_quorum(eight_from(rt.alloc(), 0)?.as_bytes())?.pairs(),
    );
    for last in [8, 9] {
        let mut looks = Looks::new();
        let Some(next) = next_after(&set, &quorum, &mut looks)? else {
            return Err(Fail::new("a quorum too few"));
        };
        quorum = next;
        holds(&rt, looks.count() <= 16384);
        equal(&rt, quorum.pairs().len(), 128);
        equal(&rt, quorum.pairs().last().copied(), Some((15, last)));
    }
    let mut looks = Looks::new();
    let greatest = parse_quorum(eight_from(rt.alloc(), 8)?.as_bytes())?;
    holds(
        &rt,
        matches!(next_after(&set, &greatest, &mut looks), Ok(None)),
    );
    holds(&rt, looks.count() <= 16384);
    Ok(())
}
