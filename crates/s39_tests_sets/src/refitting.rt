//! Tests of `refit` of `s39_backup`: backups of two secrets that have some mnemonics in common.
use crate::expect::{equal, holds};
use s39_backup::{Created, Options, Plan, create, refit};
use s39_set::parse_quorum;
use s39_words::print;
use std::test::Fail;

/// The master secrets of two published vectors.
const SECRET: [u8; 16] = *b"\xbb\x54\xaa\xc4\xb8\x9d\xc8\x68\xba\x37\xd9\xcc\x21\xb2\xce\xce";

const OTHER: [u8; 16] = *b"\xb4\x3c\xeb\x7e\x57\xa0\xea\x87\x66\x22\x16\x24\xd0\x1b\x08\x64";

const RANDOM: [u8; 70] = *b"0123456789abcdefghijklmnopqrstuvwxyzABCDEFGHIJKLMNOPQRSTUVWXYZ01234567";

const OPTIONS: Options = Options {
    exponent: 0,
    extendable: false,
};

/// How many mnemonics with names in `keep` are the same in two backups.
fn same_mnemonics(first: &Created, second: &Created, keep: &[(u8, u8)]) -> usize {
    first
        .shares()
        .iter()
        .zip(second.shares())
        .filter(|pair| keep.contains(&(pair.0.group_index(), pair.0.member_index())))
        .filter(|pair| print(pair.0).as_slice() == print(pair.1).as_slice())
        .count()
}

#[test]
fn kept_mnemonics_stay(rt: HostRuntime) {
    let rows: [(&[u8], bool); 6] = [
        (b"0.0+1.0", true),
        (b"0.0+0.1", true),
        (b"0.2+2.1", true),
        (b"0.0+0.1+1.0", false),
        (b"1.0+2.0", false),
        (b"0.3", false),
    ];
    let plan = Plan::parse("3/3of3,1of1,2of2").expect(&rt, "a plan");
    let mut first = Created::new();
    create(&plan, &SECRET, b"TREZOR", OPTIONS, &RANDOM, &mut first).expect(&rt, "accepted");
    for (names, two_short) in rows {
        let keep = parse_quorum(names).expect(&rt, "names");
        let mut random = RANDOM;
        let answer = refit(
            &plan,
            &SECRET,
            &OTHER,
            b"TREZOR",
            OPTIONS,
            &keep,
            &mut random,
        );
        equal(&rt, answer, two_short);
        holds(&rt, two_short || random.as_slice() == RANDOM.as_slice());
        let mut second = Created::new();
        create(&plan, &OTHER, b"TREZOR", OPTIONS, &random, &mut second).expect(&rt, "accepted");
        equal(&rt, second.shares().len(), 6);
        if two_short {
            equal(&rt, same_mnemonics(&first, &second, keep.pairs()), 2);
        }
    }
}

#[test]
fn examples_of_refitting(rt: HostRuntime) -> Result<(), Fail> {
    let plan = Plan::parse("3of3")?;
    let options = Options {
        exponent: 0,
        extendable: false,
    };
    let mut random = [3; 30];
    assert_eq!(rt; random.len(), plan.random_needed(16));
    let keep = parse_quorum(b"0.1")?;
    let fits = refit(&plan, &[1; 16], &[2; 16], b"", options, &keep, &mut random);
    holds(&rt, fits);
    let mut created = Created::new();
    create(&plan, &[2; 16], b"", options, &random, &mut created)?;
    // The second share is the one that `create` gives from the first secret and the old bytes.
    assert_eq!(rt; created.shares().len(), 3);
    holds(
        &rt,
        print(&created.shares()[1]).starts_with(b"alarm branch academic agree advocate "),
    );
    Ok(())
}
