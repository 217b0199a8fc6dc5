//! The worked examples of `status` and `reissue`, from the command line to the lines, the message and the status.

use crate::create::MOST;
use crate::expect::equal;
use crate::expected::{expect_lines, expect_refused_lines};
use s39_fixtures::{FIVE, SECRET, create, expect_bytes, expect_run, forged, lines, run_on};
use sha2::{Digest, Sha256};
use std::test::Fail;

const STATUS: [&str; 2] = ["shamir", "status"];

const PLAN: &str = "2/2of3,1of1,1of1";

/// Member 3 of group 0 by the plan `2/2of4,1of1,1of1` from the random bytes of the five; another program computes it.
const FOURTH_MEMBER: &str =
    "academic aluminum acrobat marathon crisis luxury step activity teammate unfair fumes endorse always ranked alto problem mailman ounce teacher bumpy";

#[test]
fn writes_lost_mnemonics_again(rt: HostRuntime) -> Result<(), Fail> {
    let alloc = rt.alloc();
    let [a, b, c, d, e] = FIVE;
    let cases: [(&str, &str, &[&str], &[&str]); 7] = [
        (PLAN, "0.1", &[a, c], &[b]),
        (PLAN, "0.0+0.1", &[c, d, e], &[a, b]),
        (PLAN, "2.0", &[a, b, d], &[e]),
        ("2/2of4,1of1,1of1", "0.3", &[a, b], &[FOURTH_MEMBER]),
        (PLAN, "0.0", &[a], &[a]),
        (PLAN, "0.0+0.2+2.0", &[e, "# a note", b, e, a], &[a, c, e]),
        (PLAN, "0.0+0.1+0.2+1.0+2.0", &[d, c, b], &FIVE),
    ];
    for (plan, names, given, written) in cases {
        expect_lines(alloc, &["shamir", "reissue", plan, names], given, written)?;
    }
    Ok(())
}

#[test]
fn refuses_what_it_cannot_tell(rt: HostRuntime) -> Result<(), Fail> {
    let alloc = rt.alloc();
    let [a, b, c, d, e] = FIVE;
    let cases: [(&str, &str, &[&str], &str); 16] = [
        (
            PLAN,
            "0.1",
            &[d, e],
            "66 cannot tell 0.1: 0 of 2 members, 2 of 2 other groups",
        ),
        (
            PLAN,
            "0.1",
            &[a, d],
            "66 cannot tell 0.1: 1 of 2 members, 1 of 2 other groups",
        ),
        (
            PLAN,
            "0.0+0.1+0.2",
            &[d, a],
            "66 cannot tell 0.1: 1 of 2 members, 1 of 2 other groups",
        ),
        (PLAN, "0.3", &[a, b], "64 name 0.3 not in plan"),
        (PLAN, "0.2+1.1+3.0", &["ducklin"], "64 name 1.1 not in plan"),
        ("2/3of3,1of1,1of1", "0.2", &[a, b], "65 other plan"),
        ("1/2of3,1of1,1of1", "2.0", &[a, d], "65 other plan"),
        ("2/2of3,1of1", "0.1", &[a, c], "65 other plan"),
        ("2/2of2,1of1,1of1", "0.0", &[b, c], "65 other plan"),
        (PLAN, "0.1+0.0", &[a, b], "63 bad list of names"),
        (PLAN, "", &["ducklin"], "63 bad list of names"),
        ("1of3", "0.1+0.0", &[a, b], "34 one of many in plan group 0"),
        ("2/2of3", "0.7", &[a, b], "32 bad number of groups in plan"),
        (PLAN, "0.1", &[a, "ducklin"], "line 2: 11 unknown word 1"),
        (PLAN, "0.1", &["# a note"], "29 no shares"),
        ("3of3", "0.1", &["# a note"], "29 no shares"),
    ];
    for (plan, names, given, told) in cases {
        expect_refused_lines(alloc, &["shamir", "reissue", plan, names], given, told)?;
    }
    Ok(())
}

#[test]
fn refuses_forged_mnemonics(rt: HostRuntime) -> Result<(), Fail> {
    let alloc = rt.alloc();
    let [a, b, c, d, _] = FIVE;
    let cases: [(&str, &[(&str, u8)], &str); 3] = [
        ("0.1", &[(a, 0xFF), (c, 0xFD)], "in group 0"),
        ("2.0", &[(a, 0xFF), (c, 0xFD), (d, 0)], "in group 0"),
        ("2.0", &[(a, 0), (b, 0), (d, 0xFF)], "of groups"),
    ];
    for (name, given, place) in cases {
        let mut input = Vec::new(alloc);
        for (mnemonic, flip) in given {
            input.extend_from_slice(forged(mnemonic, *flip)?.as_slice())?;
            input.push(b'\n')?;
        }
        let message = format!(in alloc; "shamir: 51 digest mismatch {place}\n")?;
        let words = ["shamir", "reissue", PLAN, name];
        expect_bytes(&words, input.as_slice(), alloc, ("", message.as_str(), 1))?;
    }
    Ok(())
}

#[test]
fn tells_what_is_at_hand(rt: HostRuntime) -> Result<(), Fail> {
    let alloc = rt.alloc();
    let words = create("2/2of3,3of5", SECRET);
    let created = run_on(alloc, &words, &[7; 54]);
    let mut chosen = String::new(alloc);
    for (number, line) in std::str::from_utf8(created.written.as_slice())?
        .lines()
        .enumerate()
    {
        if number == 0 || number == 2 || number == 7 {
            chosen.push_str(format!(in alloc; "{line}\n")?.as_str())?;
        }
    }
    let unequal = "groups 1 of 2\ngroup 0 members 2 of 2 0.0+0.2\ngroup 1 members 1 of 3 1.4\n";
    expect_run(&STATUS, chosen.as_str(), alloc, (unequal, "", 1))?;
    let [a, b, c, d, e] = FIVE;
    let too_few = "groups 1 of 2\ngroup 0 members 1 of 2 0.1\ngroup 1 members 1 of 1 1.0\n";
    let last_two = "groups 2 of 2\ngroup 1 members 1 of 1 1.0\ngroup 2 members 1 of 1 2.0\n";
    let all =
        "groups 3 of 2\ngroup 0 members 3 of 2 0.0+0.1+0.2\ngroup 1 members 1 of 1 1.0\ngroup 2 members 1 of 1 2.0\n";
    let cases: [(&[&str], (&str, &str, u8)); 6] = [
        (&[d, b], (too_few, "", 1)),
        (&[b, b, d, b], (too_few, "", 1)),
        (&[e, "# a note", d], (last_two, "", 0)),
        (&[c, e, a, d, b, c], (all, "", 0)),
        (&["# a note"], ("", "shamir: 29 no shares\n", 1)),
        (
            &[a, "ducklin"],
            ("", "shamir: line 2: 11 unknown word 1\n", 1),
        ),
    ];
    for (given, wanted) in cases {
        let input = lines(alloc, given)?;
        expect_run(&STATUS, input.as_str(), alloc, wanted)?;
    }
    Ok(())
}

/// The SHA-256 of the 256 lines of this plan and 4,014 bytes 11, which another program computes, as it does the lines below.
const MOST_DIGEST: [u8; 32] = [
    0xCD, 0x63, 0x46, 0x9A, 0xBF, 0x4F, 0xA3, 0x92, 0xDD, 0xA9, 0xED, 0x26, 0x9B, 0x12, 0x75, 0x91,
    0x6A, 0xAA, 0xA2, 0x9C, 0x6D, 0x59, 0x6C, 0x19, 0x56, 0xD9, 0x23, 0xA3, 0x6D, 0xFA, 0x5F, 0xAD,
];

/// The line of each group of which all members are at hand.
const WHOLE_GROUPS: [&str; 16] = [
    "group 0 members 16 of 16 0.0+0.1+0.2+0.3+0.4+0.5+0.6+0.7+0.8+0.9+0.10+0.11+0.12+0.13+0.14+0.15",
    "group 1 members 16 of 16 1.0+1.1+1.2+1.3+1.4+1.5+1.6+1.7+1.8+1.9+1.10+1.11+1.12+1.13+1.14+1.15",
    "group 2 members 16 of 16 2.0+2.1+2.2+2.3+2.4+2.5+2.6+2.7+2.8+2.9+2.10+2.11+2.12+2.13+2.14+2.15",
    "group 3 members 16 of 16 3.0+3.1+3.2+3.3+3.4+3.5+3.6+3.7+3.8+3.9+3.10+3.11+3.12+3.13+3.14+3.15",
    "group 4 members 16 of 16 4.0+4.1+4.2+4.3+4.4+4.5+4.6+4.7+4.8+4.9+4.10+4.11+4.12+4.13+4.14+4.15",
    "group 5 members 16 of 16 5.0+5.1+5.2+5.3+5.4+5.5+5.6+5.7+5.8+5.9+5.10+5.11+5.12+5.13+5.14+5.15",
    "group 6 members 16 of 16 6.0+6.1+6.2+6.3+6.4+6.5+6.6+6.7+6.8+6.9+6.10+6.11+6.12+6.13+6.14+6.15",
    "group 7 members 16 of 16 7.0+7.1+7.2+7.3+7.4+7.5+7.6+7.7+7.8+7.9+7.10+7.11+7.12+7.13+7.14+7.15",
    "group 8 members 16 of 16 8.0+8.1+8.2+8.3+8.4+8.5+8.6+8.7+8.8+8.9+8.10+8.11+8.12+8.13+8.14+8.15",
    "group 9 members 16 of 16 9.0+9.1+9.2+9.3+9.4+9.5+9.6+9.7+9.8+9.9+9.10+9.11+9.12+9.13+9.14+9.15",
    "group 10 members 16 of 16 10.0+10.1+10.2+10.3+10.4+10.5+10.6+10.7+10.8+10.9+10.10+10.11+10.12+10.13+10.14+10.15",
    "group 11 members 16 of 16 11.0+11.1+11.2+11.3+11.4+11.5+11.6+11.7+11.8+11.9+11.10+11.11+11.12+11.13+11.14+11.15",
    "group 12 members 16 of 16 12.0+12.1+12.2+12.3+12.4+12.5+12.6+12.7+12.8+12.9+12.10+12.11+12.12+12.13+12.14+12.15",
    "group 13 members 16 of 16 13.0+13.1+13.2+13.3+13.4+13.5+13.6+13.7+13.8+13.9+13.10+13.11+13.12+13.13+13.14+13.15",
    "group 14 members 16 of 16 14.0+14.1+14.2+14.3+14.4+14.5+14.6+14.7+14.8+14.9+14.10+14.11+14.12+14.13+14.14+14.15",
    "group 15 members 16 of 16 15.0+15.1+15.2+15.3+15.4+15.5+15.6+15.7+15.8+15.9+15.10+15.11+15.12+15.13+15.14+15.15",
];

#[test]
fn tells_what_is_at_hand_of_the_most_mnemonics(rt: HostRuntime) -> Result<(), Fail> {
    let alloc = rt.alloc();
    let random = vec![in alloc; 11u8; 4_014]?;
    let created = run_on(alloc, &create(MOST, SECRET), random.as_slice());
    let written = created.written.as_slice();
    equal(&rt, Sha256::digest(written), MOST_DIGEST);
    let groups = lines(alloc, &WHOLE_GROUPS)?;
    let all = format!(in alloc; "groups 16 of 16\n{groups}")?;
    expect_bytes(&STATUS, written, alloc, (all.as_str(), "", 0))?;
    // Without the first member of group 3, and without group 7.
    let mut few = String::new(alloc);
    for (number, line) in std::str::from_utf8(written)?.lines().enumerate() {
        if number != 48 && number / 16 != 7 {
            few.push_str(format!(in alloc; "{line}\n")?.as_str())?;
        }
    }
    let mut left = WHOLE_GROUPS;
    left[3] =
        "group 3 members 15 of 16 3.1+3.2+3.3+3.4+3.5+3.6+3.7+3.8+3.9+3.10+3.11+3.12+3.13+3.14+3.15";
    let before = lines(alloc, &left[..7])?;
    let behind = lines(alloc, &left[8..])?;
    let told = format!(in alloc; "groups 14 of 16\n{before}{behind}")?;
    expect_run(&STATUS, few.as_str(), alloc, (told.as_str(), "", 1))
}
