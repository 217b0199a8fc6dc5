//! Tests of `s39_backup`: shares computed from others of their backup, with mnemonics that another program computed: of a secret of 16 bytes
//! and a passphrase, with the random bytes 0, 1 and so on.
use crate::expect::{equal, holds};
use s39_backup::{Mismatch, Plan, ReissueError, TooFew, is_of_plan, reissue};
use s39_set::ShareSet;
use s39_words::{parse, print};
use std::test::Fail;

/// Share 0.0 of a backup by the plan `2/2of3,1of1,1of1`.
const FIRST: &[u8] =
    b"academic aluminum acrobat leaf buyer drink heat negative damage union purchase \
      photo inmate training amazing yield bucket wrote mule cluster";

/// Share 0.1.
const SECOND: &[u8] =
    b"academic aluminum acrobat lily august piece column laser headset unusual blimp \
      nuclear sweater criminal credit eyebrow trouble silent axis skin";

/// Share 0.2.
const THIRD: &[u8] =
    b"academic aluminum acrobat lungs dive behavior mobile ting perfect ultimate weapon \
      join paper involve clinic acrobat jerky preach gross usual";

/// Share 0.3 of the backup by the plan `2/2of4,1of1,1of1`, with the same random bytes.
const FOURTH: &[u8] =
    b"academic aluminum acrobat marathon crisis luxury step activity teammate unfair \
      fumes endorse always ranked alto problem mailman ounce teacher bumpy";

/// Share 1.0.
const GROUP_1: &[u8] =
    b"academic aluminum beard leader chest elite grant group club deploy increase divorce \
      puny cylinder romp frequent crush ruler erode bucket";

/// Share 2.0.
const GROUP_2: &[u8] =
    b"academic aluminum ceramic leader cylinder decorate mobile devote echo finger \
      program firm starting dwarf grumpy harvest enforce raisin sprinkle phantom";

/// Share 0.0 with another first byte of its value.
const WRONG_FIRST: &[u8] =
    b"academic aluminum acrobat leaf civil drink heat negative damage union purchase \
      photo inmate training amazing yield bucket lend glance junk";

/// Share 0.2 with another first byte.
const WRONG_THIRD: &[u8] =
    b"academic aluminum acrobat lungs alcohol behavior mobile ting perfect ultimate \
      weapon join paper involve clinic acrobat jerky pencil username device";

fn set_of(lines: &[&[u8]]) -> Result<ShareSet, Fail> {
    let mut set = ShareSet::new();
    for line in lines {
        set.add(parse(line)?)?;
    }
    Ok(set)
}

/// Both counts of 0.1.
fn too_few(members: u8, others: u8) -> ReissueError {
    ReissueError::Undetermined(TooFew {
        group: 0,
        member: 1,
        members,
        threshold: 2,
        others,
        required: 2,
    })
}

#[test]
fn shares_from_others(rt: HostRuntime) -> Result<(), Fail> {
    let plan = "2/2of3,1of1,1of1";
    let larger = "2/2of4,1of1,1of1";
    let wrong = ReissueError::DigestMismatch(Mismatch::InGroup { group: 0 });
    for (plan, lines, (group, member), expected) in [
        (plan, [FIRST, THIRD].as_slice(), (0, 1), Ok(SECOND)),
        (
            plan,
            [THIRD, GROUP_1, GROUP_2].as_slice(),
            (0, 0),
            Ok(FIRST),
        ),
        (
            plan,
            [THIRD, GROUP_1, GROUP_2].as_slice(),
            (0, 1),
            Ok(SECOND),
        ),
        (
            plan,
            [FIRST, SECOND, GROUP_1].as_slice(),
            (2, 0),
            Ok(GROUP_2),
        ),
        (plan, [FIRST].as_slice(), (0, 0), Ok(FIRST)),
        (larger, [FIRST, SECOND].as_slice(), (0, 3), Ok(FOURTH)),
        (
            plan,
            [GROUP_1, GROUP_2].as_slice(),
            (0, 1),
            Err(too_few(0, 2)),
        ),
        (
            plan,
            [FIRST, GROUP_1].as_slice(),
            (0, 1),
            Err(too_few(1, 1)),
        ),
        (
            plan,
            [WRONG_FIRST, WRONG_THIRD].as_slice(),
            (0, 1),
            Err(wrong),
        ),
    ] {
        let plan = Plan::parse(plan)?;
        let set = set_of(lines)?;
        if !is_of_plan(&set, &plan) || !plan.has_name(group, member) {
            return Err(Fail::new("the set and the name are of the plan"));
        }
        match (reissue(&plan, &set, group, member), expected) {
            (Ok(share), Ok(line)) => equal(&rt, print(&share).as_slice(), line),
            (Err(error), Err(cause)) => equal(&rt, error, cause),
            _ => return Err(Fail::new("one is a share, and the other is not")),
        }
    }
    let set = set_of(&[FIRST, SECOND])?;
    holds(&rt, !Plan::parse(plan)?.has_name(0, 3));
    holds(&rt, !is_of_plan(&set, &Plan::parse("2/3of3,1of1,1of1")?));
    Ok(())
}

/// Plans that differ from that of the shares in one number alone, and plans that don't differ for them.
#[test]
fn sets_of_plans_alike(rt: HostRuntime) -> Result<(), Fail> {
    for (plan, lines, expected) in [
        ("1/2of3,1of1,1of1", [FIRST, GROUP_1].as_slice(), false),
        ("3/2of3,1of1,1of1", [FIRST, GROUP_1].as_slice(), false),
        ("2/2of3,1of1", [FIRST, SECOND].as_slice(), false),
        ("2/2of3,1of1,1of1,1of1", [FIRST, GROUP_2].as_slice(), false),
        ("2/2of2,1of1,1of1", [SECOND, THIRD].as_slice(), false),
        ("2/2of3,1of1,1of1", [FIRST, FOURTH].as_slice(), false),
        ("2/3of3,1of1,1of1", [THIRD, GROUP_1].as_slice(), false),
        ("2/2of3,2of2,1of1", [GROUP_1].as_slice(), false),
        ("2/2of3,1of1", [GROUP_2].as_slice(), false),
        ("2/2of3,1of1,1of1", [FIRST, GROUP_1].as_slice(), true),
        ("2/2of4,1of1,1of1", [FIRST, FOURTH].as_slice(), true),
        ("2/2of2,2of2,1of1", [FIRST, GROUP_2].as_slice(), true),
        ("9of9", [].as_slice(), true),
    ] {
        equal(
            &rt,
            is_of_plan(&set_of(lines)?, &Plan::parse(plan)?),
            expected,
        );
    }
    Ok(())
}
