//! Tests of `judge`, and of the status of the set that it gives. The mnemonics are those of published vectors, or a plain reading of
//! the standard in Python made them, which also tells each status.
use crate::expect::{equal, holds};
use s39_input::{Fault, judge};
use s39_reading::set_status;
use std::process::Abort;
use std::test::Fail;

/// Two members of a group that needs two, of one backup.
const MEMBER_0: &[u8] =
    b"shadow pistol academic acid actress prayer class unknown daughter sweater \
    depict flip twice unkind craft early superior advocate guest smoking";

const MEMBER_2: &[u8] =
    b"shadow pistol academic always adequate wildlife fancy gross oasis cylinder \
    mustang wrist rescue view short owner flip making coding armed";

/// `MEMBER_0` with another value.
const OTHER_MEMBER_0: &[u8] =
    b"shadow pistol academic acid adapt prayer class unknown daughter sweater \
    depict flip twice unkind craft early superior document fluff canyon";

/// A member of this group that needs three.
const OF_THREE: &[u8] =
    b"shadow pistol academic agree actress prayer class unknown daughter sweater \
    depict flip twice unkind craft early superior crystal employer mountain";

/// A member of this group with another iteration exponent.
const OTHER_EXPONENT: &[u8] =
    b"shadow pipeline academic aquatic actress prayer class unknown daughter \
    sweater depict flip twice unkind craft early superior depart garlic zero";

/// A mnemonic of another backup.
const OTHER_BACKUP: &[u8] =
    b"duckling enlarge academic academic agency result length solution fridge kidney \
    coal piece deal husband erode duke ajar critical decision keyboard";

/// `MEMBER_0` with an unknown word.
const UNKNOWN_WORD: &[u8] =
    b"shadow pistol academic acid actress prayer class unknown daughter sweater \
    depict flip twize unkind craft early superior advocate guest smoking";

/// The mnemonic of another backup, a comment, and `MEMBER_0`.
const OF_TWO_BACKUPS: &[u8] =
    b"duckling enlarge academic academic agency result length solution fridge kidney \
    coal piece deal husband erode duke ajar critical decision keyboard\n\
    # at home\n\n\
    shadow pistol academic acid actress prayer class unknown daughter sweater \
    depict flip twice unkind craft early superior advocate guest smoking\r\n";

/// `MEMBER_0`, and two mnemonics of another backup that can't be together: one has the extendable flag.
const IN_CONFLICT: &[u8] =
    b"shadow pistol academic acid actress prayer class unknown daughter sweater \
    depict flip twice unkind craft early superior advocate guest smoking\n\
    duckling enlarge academic academic agency result length solution fridge kidney \
    coal piece deal husband erode duke ajar critical decision keyboard\n\
    duckling evil academic again agency result length solution fridge kidney \
    coal piece deal husband erode duke ajar primary flash threaten\n";

/// `MEMBER_0`, and a mnemonic of another backup with a wrong checksum.
const WITH_A_WRONG_LINE: &[u8] =
    b"shadow pistol academic acid actress prayer class unknown daughter sweater \
    depict flip twice unkind craft early superior advocate guest smoking\n\
    duckling enlarge academic academic agency result length solution fridge kidney \
    coal piece deal husband erode duke ajar critical decision kidney\n";

const ONE_OF_TWO: &[u8] = b"groups 0 of 1\ngroup 0 members 1 of 2 0.0\n";

const TWO_OF_TWO: &[u8] = b"groups 1 of 1\ngroup 0 members 2 of 2 0.0+0.2\n";

const ONE_OF_ONE: &[u8] = b"groups 1 of 1\ngroup 0 members 1 of 1 0.0\n";

#[test]
fn mnemonics_are_judged(rt: HostRuntime) -> Result<(), Fail> {
    // The lines, the mnemonic, its identifier, whether it is there again, and the status.
    let cases: [(&[u8], &[u8], u16, bool, &[u8]); 7] = [
        (b"", MEMBER_0, 25_653, false, ONE_OF_TWO),
        (MEMBER_0, MEMBER_0, 25_653, true, ONE_OF_TWO),
        (MEMBER_0, MEMBER_2, 25_653, false, TWO_OF_TWO),
        (MEMBER_0, OTHER_BACKUP, 7_945, false, ONE_OF_ONE),
        (OF_TWO_BACKUPS, MEMBER_2, 25_653, false, TWO_OF_TWO),
        (OF_TWO_BACKUPS, OTHER_BACKUP, 7_945, true, ONE_OF_ONE),
        (IN_CONFLICT, MEMBER_2, 25_653, false, TWO_OF_TWO),
    ];
    for (lines, line, id, again, status) in cases {
        let judged = judge(lines, line)?;
        equal(&rt, (judged.share.id(), judged.again), (id, again));
        let mut text = [0; 60];
        let told = set_status(&judged.set, &mut text)?;
        equal(&rt, told.written, status.len());
        holds(&rt, text.starts_with(status));
    }
    Ok(())
}

/// The number of the refused line, or 0, that of the refusal, and its details.
type Told = (u64, u8, u64, u64);

fn told(fault: Fault) -> Told {
    let cause = fault.refusal.cause();
    (
        fault.line.unwrap_or(0),
        cause.code,
        cause.first,
        cause.second,
    )
}

#[test]
fn mnemonics_are_refused(rt: HostRuntime) {
    let long = [b' '; 1025];
    let cases: [(&[u8], &[u8], Told); 12] = [
        (MEMBER_0, OTHER_MEMBER_0, (0, 28, 0, 0)),
        (MEMBER_0, OF_THREE, (0, 27, 0, 0)),
        (OF_TWO_BACKUPS, OTHER_EXPONENT, (0, 23, 0, 0)),
        (MEMBER_0, UNKNOWN_WORD, (0, 11, 13, 0)),
        (MEMBER_0, b"", (0, 12, 0, 0)),
        (WITH_A_WRONG_LINE, &long, (0, 71, 0, 0)),
        (MEMBER_0, &long[1..], (0, 12, 0, 0)),
        (WITH_A_WRONG_LINE, MEMBER_2, (2, 13, 0, 0)),
        (WITH_A_WRONG_LINE, OF_THREE, (2, 13, 0, 0)),
        (WITH_A_WRONG_LINE, UNKNOWN_WORD, (0, 11, 13, 0)),
        (IN_CONFLICT, OTHER_BACKUP, (3, 22, 0, 0)),
        (&long, MEMBER_0, (1, 71, 0, 0)),
    ];
    for (lines, line, refused) in cases {
        equal(&rt, judge(lines, line).err().map(told), Some(refused));
    }
}

#[test]
fn examples(rt: HostRuntime) -> Result<(), Fail> {
    judged(&rt)
}

fn judged(rt: &impl Abort) -> Result<(), Fail> {
    let first =
        b"shadow pistol academic acid actress prayer class unknown daughter sweater depict flip \
        twice unkind craft early superior advocate guest smoking";
    let other =
        b"duckling enlarge academic academic agency result length solution fridge kidney coal \
        piece deal husband erode duke ajar critical decision keyboard";
    let judged = judge(first, first)?;
    equal(rt, (judged.share.id(), judged.again), (25_653, true));
    let judged = judge(first, other)?;
    equal(rt, (judged.share.id(), judged.again), (7945, false));
    let fault = judge(first, &other[1..]).err();
    equal(
        rt,
        fault.map(|fault| (fault.line, fault.refusal.cause().code)),
        Some((None, 11)),
    );
    Ok(())
}
