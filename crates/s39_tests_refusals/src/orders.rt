//! Where two causes apply at once, the first of their order is answered. The mnemonics have values of zeros, where
//! nothing else is said; another program computes their words.

use crate::expect::equal_for;
use s39_fixtures::devices::Source;
use s39_fixtures::{ONE_OF_ONE, REPAIR, SECRET, create, expect_run, expect_told, lines};
use std::alloc::Global;
use std::process::Abort;
use std::test::Fail;

const RECOVER: [&str; 2] = ["shamir", "recover"];

const SHOW: [&str; 2] = ["shamir", "show"];

pub(crate) const UNPRINTABLE: &str = "a\x07";

// A bad checksum, and a bit of the padding.
const PADDING_AND_CHECKSUM: &str =
    "duckling enlarge acquire romp easy academic academic academic academic academic academic academic academic academic academic academic academic promise upgrade traveler";

// A bit of the padding, and group threshold 2 of one group.
const PADDING_AND_THRESHOLD: &str =
    "duckling enlarge acrobat academic easy academic academic academic academic academic academic academic academic academic academic academic academic loud twin network";

/// Nothing is written but this refusal, with status 1.
fn expect_refusal(alloc: Global, words: &[&str], input: &str, refusal: &str) -> Result<(), Fail> {
    let message = format!(in alloc; "shamir: {refusal}\n")?;
    expect_run(words, input, alloc, ("", message.as_str(), 1))
}

#[test]
fn answers_the_first_cause_of_a_line(rt: HostRuntime) -> Result<(), Fail> {
    let alloc = rt.alloc();
    let long = "a".repeat(alloc, 1025)?;
    let cases = [
        // Too long, and no word of the list.
        (long.as_str(), "line 1: 71 line too long"),
        // A wrong number of words, and one that isn't in the list.
        ("academic ducklin", "line 1: 11 unknown word 2"),
        // A wrong number of words, which have no right checksum.
        (
            "duckling enlarge academic academic agency result length solution fridge kidney coal piece deal husband erode duke ajar critical decision",
            "line 1: 12 19 words make no share",
        ),
        (PADDING_AND_CHECKSUM, "line 1: 13 bad checksum"),
        // A bad checksum, and group threshold 2 of one group.
        (
            "duckling enlarge acrobat academic academic academic academic academic academic academic academic academic academic academic academic academic academic dough scout quick",
            "line 1: 13 bad checksum",
        ),
        (PADDING_AND_THRESHOLD, "line 1: 14 bad padding"),
    ];
    for (line, refusal) in cases {
        expect_refusal(alloc, &SHOW, line, refusal)?;
    }
    Ok(())
}

#[test]
fn answers_the_first_cause_of_marks(rt: HostRuntime) -> Result<(), Fail> {
    let alloc = rt.alloc();
    let long = "?".repeat(alloc, 1025)?;
    let cases = [
        // Too long, and a mark that stands for no word.
        (long.as_str(), "line 1: 71 line too long"),
        // A mark that stands for no word, and a wrong number of marks.
        ("? ? ? zz?", "line 1: 11 unknown word 4"),
        // A mark that stands for no word, and four open places.
        (
            "zz? enlarge ? ? ? ? academic academic academic academic academic academic academic academic academic academic academic promise upgrade traveler",
            "line 1: 11 unknown word 1",
        ),
        // A wrong number of marks, and four open places.
        ("? ? ? ?", "line 1: 12 4 words make no share"),
        // No mnemonic has these words, and a bit of the padding.
        (
            "duckling enlarge ? academic easy academic academic academic academic academic academic academic academic academic academic academic academic loud twin network",
            "line 1: 17 no mnemonic has these words",
        ),
        (PADDING_AND_CHECKSUM, "line 1: 13 bad checksum"),
        (PADDING_AND_THRESHOLD, "line 1: 14 bad padding"),
    ];
    for (line, refusal) in cases {
        expect_refusal(alloc, &REPAIR, line, refusal)?;
    }
    Ok(())
}

// Member 0 of group 0, thresholds 1, of 16 groups.
const FIRST: &str =
    "duckling enlarge acquire romp academic academic academic academic academic academic academic academic academic academic academic academic academic beyond system salary";

/// What differs from `FIRST`, and the first cause.
const LATER: [(&str, &str); 7] = [
    // The identifier and the extendable flag.
    (
        "duckling favorite acquire romp academic academic academic academic academic academic academic academic academic academic academic academic academic prize sharp salt",
        "21 other identifier",
    ),
    // The extendable flag and the exponent.
    (
        "duckling evoke acquire romp academic academic academic academic academic academic academic academic academic academic academic academic academic junk river rhythm",
        "22 other extendable flag",
    ),
    // The exponent and the group threshold.
    (
        "duckling entrance adapt romp academic academic academic academic academic academic academic academic academic academic academic academic academic craft genre observe",
        "23 other exponent",
    ),
    // The group threshold and the group count.
    (
        "duckling enlarge adapt leader academic academic academic academic academic academic academic academic academic academic academic academic academic building artist smith",
        "24 other group threshold",
    ),
    // The group count and the length.
    (
        "duckling enlarge acquire leader academic academic academic academic academic academic academic academic academic academic academic academic academic academic academic often primary teacher",
        "25 other group count",
    ),
    // The length and the member threshold, of member 1.
    (
        "duckling enlarge acquire scared academic academic academic academic academic academic academic academic academic academic academic academic academic academic academic junk improve scout",
        "26 other length",
    ),
    // The member threshold and the value, of member 0.
    (
        "duckling enlarge acquire roster acid acrobat again away echo acrobat again away echo acrobat again away echo envelope elbow photo",
        "27 other member threshold in group 0",
    ),
];

#[test]
fn answers_the_first_cause_of_a_later_share(rt: HostRuntime) -> Result<(), Fail> {
    let alloc = rt.alloc();
    for (later, refusal) in LATER {
        let refusal = format!(in alloc; "line 2: {refusal}")?;
        for both in [[FIRST, later], [later, FIRST]] {
            let input = lines(alloc, &both)?;
            expect_refusal(alloc, &RECOVER, input.as_str(), refusal.as_str())?;
        }
    }
    Ok(())
}

// Of two groups of threshold 2, group 0 with member threshold 1 and with 2, and group 1 likewise.
pub(crate) const ONE_OF_GROUP_0: &str =
    "duckling enlarge acrobat easy academic academic academic academic academic academic academic academic academic academic academic academic academic include inform visitor";

const TWO_OF_GROUP_0: [&str; 2] = [
    "duckling enlarge acrobat echo academic academic academic academic academic academic academic academic academic academic academic academic academic bulb stay numb",
    "duckling enlarge acrobat email academic academic academic academic academic academic academic academic academic academic academic academic academic medical admit heat",
];

pub(crate) const ONE_OF_GROUP_1: &str =
    "duckling enlarge beard easy academic academic academic academic academic academic academic academic academic academic academic academic academic geology failure junk";

const TWO_OF_GROUP_1: [&str; 2] = [
    "duckling enlarge beard echo academic academic academic academic academic academic academic academic academic academic academic academic academic antenna worthy bishop",
    "duckling enlarge beard email academic academic academic academic academic academic academic academic academic academic academic academic academic ounce coastal teaspoon",
];

const UNPRINTABLE_RECOVER: [&str; 4] = ["shamir", "recover", "--passphrase", UNPRINTABLE];

const UNPRINTABLE_DRILL: [&str; 4] = ["shamir", "drill", "--passphrase", UNPRINTABLE];

const BAD_CURSOR: [&str; 6] = [
    "shamir",
    "drill",
    "--after",
    "0.00",
    "--passphrase",
    UNPRINTABLE,
];

const NO_QUORUM: [&str; 4] = ["shamir", "drill", "--after", "0.0"];

const BAD_PASSPHRASE: &str = "41 passphrase byte 2 not printable";

pub(crate) const UNKNOWN_WORD: &str = "line 1: 11 unknown word 1";

/// The words on these lines have this refusal.
pub(crate) fn expect_cause(
    alloc: Global,
    words: &[&str],
    input: &[&str],
    refusal: &str,
) -> Result<(), Fail> {
    let input = lines(alloc, input)?;
    expect_refusal(alloc, words, input.as_str(), refusal)
}

// The cursor, the passphrase, then a line.
#[test]
fn answers_what_is_known_before_a_line(rt: HostRuntime) -> Result<(), Fail> {
    let [a, _] = TWO_OF_GROUP_0;
    let cases: [(&[&str], &[&str], &str); 5] = [
        (&BAD_CURSOR, &["ducklin"], "61 bad cursor"),
        (&UNPRINTABLE_RECOVER, &["ducklin"], BAD_PASSPHRASE),
        (&UNPRINTABLE_DRILL, &["ducklin"], BAD_PASSPHRASE),
        (&UNPRINTABLE_RECOVER, &[], BAD_PASSPHRASE),
        (&UNPRINTABLE_DRILL, &[a], BAD_PASSPHRASE),
    ];
    for (words, input, refusal) in cases {
        expect_cause(rt.alloc(), words, input, refusal)?;
    }
    Ok(())
}

// A line, then what the set lacks, and then the cursor.
#[test]
fn answers_the_first_cause_of_a_set(rt: HostRuntime) -> Result<(), Fail> {
    let [a, b] = TWO_OF_GROUP_0;
    let c = ONE_OF_GROUP_1;
    let other = "line 2: 24 other group threshold";
    let later = "line 4: 24 other group threshold";
    let cases: [(&[&str], &[&str], &str); 8] = [
        (&RECOVER, &["ducklin"], UNKNOWN_WORD),
        (&RECOVER, &[a, FIRST], other),
        (&NO_QUORUM, &["ducklin"], UNKNOWN_WORD),
        (&NO_QUORUM, &[a, FIRST], other),
        (&NO_QUORUM, &[a, b, c, FIRST], later),
        (&NO_QUORUM, &[], "29 no shares"),
        (&NO_QUORUM, &[a], "30 incomplete: 0 of 2 groups"),
        (&NO_QUORUM, &[a, b, c], "62 cursor is no quorum"),
    ];
    for (words, input, refusal) in cases {
        expect_cause(rt.alloc(), words, input, refusal)?;
    }
    Ok(())
}

// What the set lacks, then the digest of a group, the lowest first, and then that of the groups.
#[test]
fn answers_the_first_cause_of_a_recovery(rt: HostRuntime) -> Result<(), Fail> {
    let [a, b] = TWO_OF_GROUP_0;
    let [c, d] = TWO_OF_GROUP_1;
    let (one_a, one_c) = (ONE_OF_GROUP_0, ONE_OF_GROUP_1);
    let in_group_0 = "51 digest mismatch in group 0";
    let in_group_1 = "51 digest mismatch in group 1";
    let cases: [(&[&str], &str); 5] = [
        (&[a, b], "30 incomplete: 1 of 2 groups"),
        (&[a, b, one_c], in_group_0),
        (&[c, a, d, b], in_group_0),
        (&[one_a, c, d], in_group_1),
        (&[one_a, one_c], "51 digest mismatch of groups"),
    ];
    for (input, refusal) in cases {
        expect_cause(rt.alloc(), &RECOVER, input, refusal)?;
    }
    Ok(())
}

#[test]
fn answers_the_first_cause_of_a_plan(rt: HostRuntime) -> Result<(), Fail> {
    let alloc = rt.alloc();
    let cases = [
        // No plan, and a wrong number of groups, of members, and one of many.
        ("2/1of1,", "31 bad plan"),
        ("3of2,", "31 bad plan"),
        ("1of1,1of3", "31 bad plan"),
        // A wrong number of groups, and of members, and one of many.
        ("2/3of2", "32 bad number of groups in plan"),
        ("2/1of3", "32 bad number of groups in plan"),
        // A wrong number of members and one of many in one group.
        ("1of17", "33 bad number of members in plan group 0"),
        ("1/1of1,1of17", "33 bad number of members in plan group 1"),
        // In two groups: that of the first.
        ("2/3of2,1of3", "33 bad number of members in plan group 0"),
        ("2/1of3,3of2", "34 one of many in plan group 0"),
        ("2/1of1,1of3,3of2", "34 one of many in plan group 1"),
    ];
    for (plan, refusal) in cases {
        expect_refusal(alloc, &create(plan, SECRET), "", refusal)?;
    }
    Ok(())
}

#[test]
fn answers_the_first_cause_of_a_creation(rt: HostRuntime) -> Result<(), Fail> {
    let alloc = rt.alloc();
    let short = &SECRET[..28];
    let no_hex = "shamir: master secret isn't hexadecimal\n";
    expect_run(&create("1of1,", "zz"), "", alloc, ("", no_hex, 2))?;
    // The plan, the passphrase, the secret, and then the random bytes.
    let cases = [
        ("1of1,", SECRET, UNPRINTABLE, "31 bad plan"),
        ("1of3", short, UNPRINTABLE, "34 one of many in plan group 0"),
        (
            "1of1",
            short,
            UNPRINTABLE,
            "41 passphrase byte 2 not printable",
        ),
        (
            "1of1",
            SECRET,
            UNPRINTABLE,
            "41 passphrase byte 2 not printable",
        ),
        ("1of1", short, "", "42 secret of 14 bytes"),
    ];
    for (plan, secret, passphrase, refusal) in cases {
        let words = [
            "shamir",
            "create",
            plan,
            "--master-secret",
            secret,
            "--passphrase",
            passphrase,
        ];
        expect_refusal(alloc, &words, "", refusal)?;
    }
    Ok(())
}

/// The words on a reader that gives the input in one piece and fails then: the message, the status, and how often the
/// reader is called.
pub(crate) fn expect_cut(
    rt: &impl Abort,
    alloc: Global,
    words: &[&str],
    input: &str,
    wanted: (&str, u8, usize),
) -> Result<(), Fail> {
    let (refusal, status, calls) = wanted;
    let message = format!(in alloc; "shamir: {refusal}\n")?;
    let mut device = Source::new(input.as_bytes(), 4096, 1);
    let wanted = (message.as_str(), status);
    expect_told(words, &mut device, Vec::new(alloc), alloc, wanted)?;
    equal_for(rt, refusal, device.calls, calls);
    Ok(())
}

#[test]
fn answers_a_refusal_or_a_failed_read(rt: HostRuntime) -> Result<(), Fail> {
    let alloc = rt.alloc();
    let passphrase = "41 passphrase byte 2 not printable";
    let unprintable = ["shamir", "recover", "--passphrase", UNPRINTABLE];
    let drill = ["shamir", "drill", "--passphrase", UNPRINTABLE];
    let create_unprintable = [
        "shamir",
        "create",
        "1of1",
        "--master-secret",
        SECRET,
        "--passphrase",
        UNPRINTABLE,
    ];
    let one = create("1of1", SECRET);
    let short = create("1of1", &SECRET[..28]);
    let read_failed = ("72 read failed", 3, 2);
    let cases: [(&[&str], &str, (&str, u8, usize)); 13] = [
        // Known before anything is read.
        (&unprintable, ONE_OF_ONE, (passphrase, 1, 0)),
        (&drill, ONE_OF_ONE, (passphrase, 1, 0)),
        (&create_unprintable, "abc", (passphrase, 1, 0)),
        (&short, "abc", ("42 secret of 14 bytes", 1, 0)),
        // Known from the bytes that came.
        (&one, "abc", ("43 random bytes: 2 needed", 1, 1)),
        (&SHOW, "ducklin\n", ("line 1: 11 unknown word 1", 1, 1)),
        (&RECOVER, "ducklin\n", ("line 1: 11 unknown word 1", 1, 1)),
        (&REPAIR, "??\n", ("line 1: 11 unknown word 1", 1, 1)),
        // Not known.
        (&one, "ab", read_failed),
        (&one, "a", read_failed),
        (&SHOW, "ducklin", read_failed),
        (&REPAIR, "??", read_failed),
        (&RECOVER, "# a note\n", read_failed),
    ];
    for (words, input, wanted) in cases {
        expect_cut(&rt, alloc, words, input, wanted)?;
    }
    Ok(())
}
