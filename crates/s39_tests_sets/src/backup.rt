//! Tests of `s39_backup`: plans, created backups, the memo, and the examples of its doc comments. The values come from
//! published vectors, or from a plain reading of the standard in Python.
use crate::expect::{equal, holds};
use s39_backup::{
    CreateError, Created, Members, Memo, Options, Plan, PlanError, RecoverError, combine_quorum,
    create, is_of_plan, params_of, recover_by, recover_quorum, reissue,
};
use s39_kdf::{Bytes, Params};
use s39_set::{ShareSet, first, parse_quorum};
use s39_words::{parse, print};
use std::process::Abort;
use std::test::Fail;

/// The master secret of a published vector.
const SECRET: [u8; 16] = *b"\xbb\x54\xaa\xc4\xb8\x9d\xc8\x68\xba\x37\xd9\xcc\x21\xb2\xce\xce";

#[test]
fn refused_plans(rt: HostRuntime) {
    let cases = [
        ("1of3", PlanError::OneOfMany { group: 0 }),
        ("3of2", PlanError::PlanMembers { group: 0 }),
        ("2of17", PlanError::PlanMembers { group: 0 }),
        ("3/1of1,1of1", PlanError::PlanGroups),
        ("1of1,1of1", PlanError::BadPlan),
        ("0of1", PlanError::BadPlan),
        ("02of3", PlanError::BadPlan),
        ("2/2of3", PlanError::PlanGroups),
        (
            "1/1of1,1of1,1of1,1of1,1of1,1of1,1of1,1of1,1of1,1of1,1of1,1of1,1of1,1of1,1of1,1of1,1of1",
            PlanError::PlanGroups,
        ),
        ("0/1of1", PlanError::BadPlan),
        ("1/1of1,", PlanError::BadPlan),
        (" 1of1", PlanError::BadPlan),
        ("100of1", PlanError::BadPlan),
        ("", PlanError::BadPlan),
        ("2/1of3,5of2", PlanError::OneOfMany { group: 0 }),
        ("99of99", PlanError::PlanMembers { group: 0 }),
        ("2/5of2,1of3", PlanError::PlanMembers { group: 0 }),
        ("1/2of2,1of3", PlanError::OneOfMany { group: 1 }),
        ("1/2of2/2of2", PlanError::BadPlan),
        ("2of2x", PlanError::BadPlan),
        ("1/", PlanError::BadPlan),
    ];
    for (text, refusal) in cases {
        equal(&rt, Plan::parse(text).err(), Some(refusal));
    }
}

#[test]
fn accepted_plans(rt: HostRuntime) {
    let plan = Plan::parse("16of16").expect(&rt, "a plan");
    equal(&rt, plan.group_threshold, 1);
    equal(
        &rt,
        plan.groups.as_slice(),
        [Members {
            threshold: 16,
            count: 16,
        }]
        .as_slice(),
    );
    for text in ["3of5", "1/3of5"] {
        let plan = Plan::parse(text).expect(&rt, "a plan");
        equal(&rt, plan.group_threshold, 1);
        equal(
            &rt,
            plan.groups.as_slice(),
            [Members {
                threshold: 3,
                count: 5,
            }]
            .as_slice(),
        );
    }
    let plan = Plan::parse("2/2of3,1of1,10of12").expect(&rt, "a plan");
    equal(&rt, plan.group_threshold, 2);
    equal(
        &rt,
        plan.groups.as_slice(),
        [
            Members {
                threshold: 2,
                count: 3,
            },
            Members {
                threshold: 1,
                count: 1,
            },
            Members {
                threshold: 10,
                count: 12,
            },
        ]
        .as_slice(),
    );
}

// The identifier is the first two random bytes, less the highest bit.
#[test]
fn created_as_planned(rt: HostRuntime) {
    let plan = Plan::parse("2/2of3,1of1,1of1").expect(&rt, "a plan");
    let options = Options {
        exponent: 1,
        extendable: true,
    };
    let mut random = [0; 30];
    random[0] = 0x81;
    random[1] = 0x02;
    let mut created = Created::new();
    create(&plan, &[0; 18], b"", options, &random, &mut created).expect(&rt, "accepted");
    let members = [(0, 0, 2), (0, 1, 2), (0, 2, 2), (1, 0, 1), (2, 0, 1)];
    equal(&rt, created.shares().len(), members.len());
    for (share, (group, member, threshold)) in created.shares().iter().zip(members) {
        equal(
            &rt,
            (share.id(), share.extendable(), share.exponent()),
            (0x0102, true, 1),
        );
        equal(&rt, (share.group_threshold(), share.group_count()), (2, 3));
        equal(
            &rt,
            (share.group_index(), share.member_index()),
            (group, member),
        );
        equal(
            &rt,
            (share.member_threshold(), share.value().len()),
            (threshold, 18),
        );
    }
}

#[test]
fn refused_creations(rt: HostRuntime) {
    let plan = Plan::parse("1of1").expect(&rt, "a plan");
    let options = Options {
        exponent: 0,
        extendable: false,
    };
    let mut created = Created::new();
    let refusal = create(&plan, &[0; 14], b"a\x07", options, b"", &mut created).err();
    equal(&rt, refusal.map(|refusal| refusal.cause().code), Some(41));
    let refusal = create(&plan, &[0; 14], b"", options, b"", &mut created).err();
    equal(&rt, refusal.map(|refusal| refusal.cause().code), Some(42));
    for random in [b"".as_slice(), b"\x00", b"\x00\x00\x00"] {
        let refusal = create(&plan, &SECRET, b"", options, random, &mut created).err();
        equal(
            &rt,
            refusal,
            Some(CreateError::BadRandomLength { needed: 2 }),
        );
    }
    equal(&rt, created.shares().len(), 0);
}

/// The encrypted secret of the backup of three groups that is created from `SECRET`, with the passphrase `TREZOR`.
const ENCRYPTED: [u8; 16] = *b"\xae\x32\x83\x67\x0d\x82\x26\xe1\x04\x44\x7f\xf0\xa4\xa3\x2f\x69";

/// The share value of a published mnemonic.
const VALUE: [u8; 16] = *b"\x11\xbc\x60\x9d\x21\x74\x7c\x49\xba\x78\xc0\x70\x12\x93\xe4\x17";

#[test]
fn values_deciphered_once(rt: HostRuntime) {
    let [a, b, c] = [[0; 16], [1; 16], [2; 16]];
    let rows: [(&[[u8; 16]], u64); 4] = [
        (&[ENCRYPTED; 7], 1),
        (&[VALUE, a, VALUE, a], 2),
        (&[ENCRYPTED, VALUE, a, b, c, ENCRYPTED], 6),
        (&[ENCRYPTED, VALUE, a, b, c, VALUE], 5),
    ];
    let params = Params {
        id: 1,
        extendable: false,
        exponent: 0,
    };
    for (values, made) in rows {
        let mut memo = Memo::new(b"TREZOR", params);
        for value in values {
            let encrypted = Bytes::try_from(value.as_slice()).unwrap();
            let _ = memo.secret(&encrypted);
        }
        equal(&rt, memo.made(), made);
    }
}

#[test]
fn examples(rt: HostRuntime) -> Result<(), Fail> {
    plans(&rt)?;
    creations(&rt)?;
    recoveries(&rt)?;
    deciphered(&rt)?;
    sets_of_plans(&rt)?;
    reissues(&rt)
}

fn plans(rt: &impl Abort) -> Result<(), Fail> {
    let plan = Plan::parse("2/2of3,1of1,1of1")?;
    equal(rt, (plan.group_threshold, plan.groups.len()), (2, 3));
    let members = Members {
        threshold: 2,
        count: 3,
    };
    equal(rt, plan.groups.first(), Some(&members));
    let refused = Plan::parse("1of3");
    equal(rt, refused.err(), Some(PlanError::OneOfMany { group: 0 }));

    let plan = Plan::parse_bytes(b"2of3")?;
    equal(rt, (plan.group_threshold, plan.groups.len()), (1, 1));
    let refused = Plan::parse_bytes(b"2of3\xff");
    equal(rt, refused.err(), Some(PlanError::BadPlan));

    let plan = Plan::parse("2/2of3,1of1,1of1")?;
    equal(rt, plan.random_needed(16), 26);

    let plan = Plan::parse("2/2of3,1of1,1of1")?;
    holds(rt, plan.has_name(0, 2));
    holds(rt, !plan.has_name(0, 3));
    Ok(())
}

fn creations(rt: &impl Abort) -> Result<(), Fail> {
    let plan = Plan::parse("1of1")?;
    let secret = *b"\xbb\x54\xaa\xc4\xb8\x9d\xc8\x68\xba\x37\xd9\xcc\x21\xb2\xce\xce";
    let options = Options {
        exponent: 0,
        extendable: false,
    };
    let random = b"\x1f\x09";
    let mut created = Created::new();
    create(&plan, &secret, b"TREZOR", options, random, &mut created)?;
    assert_eq!(rt; created.shares().len(), 1);
    holds(
        rt,
        print(&created.shares()[0]).starts_with(b"duckling enlarge academic academic "),
    );
    Ok(())
}

fn recoveries(rt: &impl Abort) -> Result<(), Fail> {
    let mut set = ShareSet::new();
    set.add(parse(
        b"duckling enlarge academic academic agency result length solution fridge kidney coal \
        piece deal husband erode duke ajar critical decision keyboard",
    )?)?;
    let quorum = first(&set)?;
    let encrypted = combine_quorum(&set, &quorum)?;
    holds(
        rt,
        encrypted.starts_with(b"\x11\xbc\x60\x9d\x21\x74\x7c\x49"),
    );

    let params = params_of(&set, &quorum);
    equal(rt, (params.id, params.exponent), (7945, 0));

    let quorum = parse_quorum(b"0.0")?;
    let secret = recover_by(&set, &quorum, b"TREZOR")?;
    holds(rt, secret.starts_with(b"\xbb\x54\xaa\xc4\xb8\x9d\xc8\x68"));
    let other = recover_by(&set, &parse_quorum(b"0.1")?, b"TREZOR");
    equal(rt, other.err(), Some(RecoverError::NotAQuorum));

    let quorum = first(&set)?;
    let secret = recover_quorum(&set, &quorum, b"TREZOR")?;
    holds(rt, secret.starts_with(b"\xbb\x54\xaa\xc4\xb8\x9d\xc8\x68"));
    Ok(())
}

fn deciphered(rt: &impl Abort) -> Result<(), Fail> {
    let params = Params {
        id: 7945,
        extendable: false,
        exponent: 0,
    };
    let mut memo = Memo::new(b"TREZOR", params);
    let encrypted = *b"\x11\xbc\x60\x9d\x21\x74\x7c\x49\xba\x78\xc0\x70\x12\x93\xe4\x17";
    let encrypted = Bytes::try_from(encrypted.as_slice()).unwrap();
    let secret = memo.secret(&encrypted);
    holds(rt, secret.starts_with(b"\xbb\x54\xaa\xc4\xb8\x9d\xc8\x68"));
    equal(rt, memo.secret(&encrypted).as_slice(), secret.as_slice());
    equal(rt, memo.made(), 1);
    Ok(())
}

fn sets_of_plans(rt: &impl Abort) -> Result<(), Fail> {
    let mut set = ShareSet::new();
    set.add(parse(
        b"shadow pistol academic always adequate wildlife fancy gross oasis cylinder mustang \
        wrist rescue view short owner flip making coding armed",
    )?)?;
    holds(rt, is_of_plan(&set, &Plan::parse("2of3")?));
    holds(rt, !is_of_plan(&set, &Plan::parse("3of3")?));
    Ok(())
}

fn reissues(rt: &impl Abort) -> Result<(), Fail> {
    let mut set = ShareSet::new();
    set.add(parse(
        b"shadow pistol academic always adequate wildlife fancy gross oasis cylinder mustang \
        wrist rescue view short owner flip making coding armed",
    )?)?;
    set.add(parse(
        b"shadow pistol academic acid actress prayer class unknown daughter sweater depict flip \
        twice unkind craft early superior advocate guest smoking",
    )?)?;
    let plan = Plan::parse("2of3")?;
    assert!(rt; is_of_plan(&set, &plan));
    assert!(rt; plan.has_name(0, 1));
    let share = reissue(&plan, &set, 0, 1)?;
    holds(
        rt,
        print(&share).starts_with(b"shadow pistol academic agency acid license obtain "),
    );
    Ok(())
}
