//! The worked examples of `drill`, from the command line to the lines and the status.

use crate::create::MOST;
use crate::expect::equal;
use s39_fixtures::{
    DRILL, FIVE, ONE_OF_ONE, ONE_OF_ONE_SECRET, QUORUMS_OF_FIVE, RANDOM, SECRET,
    TWO_NEEDED_MEMBER_0, TWO_NEEDED_MEMBER_2, create, expect_bytes, expect_run, forged, lines,
    run_on,
};
use std::alloc::{AllocError, Global};
use std::process::Abort;
use std::test::Fail;

/// Runs a drill with these options, and compares its output, its message and its status.
fn expect_drill(
    alloc: Global,
    options: &[&str],
    input: &[u8],
    wanted: (&str, &str, u8),
) -> Result<(), Fail> {
    let mut words = Vec::new(alloc);
    words.extend_from_slice(&DRILL)?;
    words.extend_from_slice(options)?;
    expect_bytes(&words, input, alloc, wanted)
}

#[test]
fn lists_quorums(rt: HostRuntime) -> Result<(), Fail> {
    let alloc = rt.alloc();
    let [a, b, c, d, e] = FIVE;
    let mut all = String::new(alloc);
    for quorum in QUORUMS_OF_FIVE {
        all.push_str(format!(in alloc; "{quorum} {ONE_OF_ONE_SECRET}")?.as_str())?;
    }
    all.push_str("end\n")?;
    let part = format!(in alloc; "0.1+0.2+1.0 {ONE_OF_ONE_SECRET}more after 0.1+0.2+1.0\n")?;
    let last = format!(in alloc; "1.0+2.0 {ONE_OF_ONE_SECRET}end\n")?;
    let cases: [(&[&str], &str); 5] = [
        (&[], all.as_str()),
        (&["--limit", "7"], all.as_str()),
        (&["--after", "0.0+0.2+2.0", "--limit", "1"], part.as_str()),
        (&["--after", "0.1+0.2+2.0"], last.as_str()),
        (&["--after", "1.0+2.0"], "end\n"),
    ];
    for input in [[a, b, c, d, e], [e, c, a, d, b]] {
        let input = lines(alloc, &input)?;
        for (options, output) in cases {
            expect_drill(alloc, options, input.as_bytes(), (output, "", 0))?;
        }
    }
    Ok(())
}

#[test]
fn takes_options_in_one_word_and_in_two(rt: HostRuntime) -> Result<(), Fail> {
    let alloc = rt.alloc();
    let forms: [&[&str]; 3] = [
        &["--passphrase=TREZOR", "--after=0.0+0.2+2.0", "--limit=1"],
        &[
            "--passphrase",
            "TREZOR",
            "--after",
            "0.0+0.2+2.0",
            "--limit",
            "1",
        ],
        &["--passphrase=TREZOR", "--after", "0.0+0.2+2.0", "--limit=1"],
    ];
    let input = lines(alloc, &FIVE)?;
    let output = format!(in alloc; "0.1+0.2+1.0 {ONE_OF_ONE_SECRET}more after 0.1+0.2+1.0\n")?;
    for options in forms {
        let mut words = Vec::new(alloc);
        words.extend_from_slice(&["shamir", "drill"])?;
        words.extend_from_slice(options)?;
        expect_run(&words, input.as_str(), alloc, (output.as_str(), "", 0))?;
    }
    Ok(())
}

#[test]
fn lists_quorums_of_the_vectors(rt: HostRuntime) -> Result<(), Fail> {
    let alloc = rt.alloc();
    let two = lines(
        alloc,
        &[
            TWO_NEEDED_MEMBER_2,
            TWO_NEEDED_MEMBER_0,
            TWO_NEEDED_MEMBER_2,
        ],
    )?;
    // The fields of `ONE_OF_ONE`, but group 1 and a value of zeros; another program computes both lines.
    let other =
        "duckling enlarge away academic academic academic academic academic academic academic academic academic academic academic academic academic academic hearing level intend";
    let groups = lines(alloc, &[ONE_OF_ONE, other])?;
    let cases: [(&[&str], &str, &str); 5] = [
        (
            &[],
            two.as_str(),
            "0.0+0.2 b43ceb7e57a0ea8766221624d01b0864\nend\n",
        ),
        (&["--after", "0.0+0.2"], two.as_str(), "end\n"),
        (
            &[],
            groups.as_str(),
            "0.0 bb54aac4b89dc868ba37d9cc21b2cece\n1.0 3087802d800510d69662ff7c33626c72\nend\n",
        ),
        (&["--fingerprint"], two.as_str(), "0.0+0.2 5f5702dc\nend\n"),
        (
            &["--fingerprint", "--limit", "2"],
            groups.as_str(),
            "0.0 df41d8fe\n1.0 73aeb1c0\nend\n",
        ),
    ];
    for (options, input, output) in cases {
        expect_drill(alloc, options, input.as_bytes(), (output, "", 0))?;
    }
    Ok(())
}

/// The listing of all quorums of five mnemonics, each with this text.
fn told_of_five(alloc: Global, told: &str) -> Result<String, AllocError> {
    let mut all = String::new(alloc);
    for quorum in QUORUMS_OF_FIVE {
        all.push_str(format!(in alloc; "{quorum} {told}\n")?.as_str())?;
    }
    all.push_str("end\n")?;
    Ok(all)
}

#[test]
fn compares_with_an_expected_fingerprint(rt: HostRuntime) -> Result<(), Fail> {
    let alloc = rt.alloc();
    let input = lines(alloc, &FIVE)?;
    let right = told_of_five(alloc, "as expected")?;
    let wrong = told_of_five(alloc, "other secret")?;
    let cases: [(&[&str], &str, u8); 6] = [
        (&["--expect", "df41d8fe"], right.as_str(), 0),
        (&["--expect=DF41D8FE"], right.as_str(), 0),
        (&["--expect=df41d8ff"], wrong.as_str(), 1),
        (&["--expect=df41d8ff", "--after=1.0+2.0"], "end\n", 0),
        (
            &["--expect=df41d8fe", "--after=0.0+0.2+2.0", "--limit=1"],
            "0.1+0.2+1.0 as expected\nmore after 0.1+0.2+1.0\n",
            0,
        ),
        (
            &["--expect=5f5702dc", "--after=0.0+0.2+2.0", "--limit=1"],
            "0.1+0.2+1.0 other secret\nmore after 0.1+0.2+1.0\n",
            1,
        ),
    ];
    for (options, output, status) in cases {
        expect_drill(alloc, options, input.as_bytes(), (output, "", status))?;
    }
    // The passphrase is forgotten.
    let forgotten = ["shamir", "drill", "--expect=df41d8fe"];
    expect_run(&forgotten, input.as_str(), alloc, (wrong.as_str(), "", 1))
}

#[test]
fn tells_expected_secrets_from_others(rt: HostRuntime) -> Result<(), Fail> {
    let alloc = rt.alloc();
    // The fields of `ONE_OF_ONE`, but group 1 and a value of zeros; another program computes both lines.
    let other =
        "duckling enlarge away academic academic academic academic academic academic academic academic academic academic academic academic academic academic hearing level intend";
    let groups = lines(alloc, &[ONE_OF_ONE, other])?;
    for (digits, output) in [
        ("df41d8fe", "0.0 as expected\n1.0 other secret\nend\n"),
        ("73aeb1c0", "0.0 other secret\n1.0 as expected\nend\n"),
    ] {
        let options = ["--expect", digits];
        expect_drill(alloc, &options, groups.as_bytes(), (output, "", 1))?;
    }
    Ok(())
}

#[test]
fn refuses_what_is_no_fingerprint(rt: HostRuntime) -> Result<(), Fail> {
    let alloc = rt.alloc();
    for digits in [
        "df41d8f",
        "df41d8fe0",
        "df41d8fg",
        "",
        " df41d8f",
        "0xdf41d8",
    ] {
        let options = ["--expect", digits];
        let refusal = ("", "shamir: 44 bad fingerprint\n", 1);
        expect_drill(alloc, &options, ONE_OF_ONE.as_bytes(), refusal)?;
    }
    Ok(())
}

#[test]
fn refuses_what_cannot_be_drilled(rt: HostRuntime) -> Result<(), Fail> {
    let alloc = rt.alloc();
    let five = lines(alloc, &FIVE)?;
    let one = lines(alloc, &[TWO_NEEDED_MEMBER_2, TWO_NEEDED_MEMBER_2])?;
    let bad = "shamir: 61 bad cursor\n";
    let none = "shamir: 62 cursor is no quorum\n";
    let lack = "shamir: 30 incomplete: 0 of 1 groups\n";
    let cases: [(&[&str], &str, &str); 9] = [
        (&["--after", "0.0+1.0"], five.as_str(), none),
        (&["--after", "0.2+0.0"], five.as_str(), bad),
        (&["--after", "0.0+0.0"], five.as_str(), bad),
        (&["--after", "0.00"], five.as_str(), bad),
        (&["--after", "16.0"], "", bad),
        (&["--after", ""], "", bad),
        (&[], one.as_str(), lack),
        (&["--after", "0.2"], one.as_str(), lack),
        (&[], "", "shamir: 29 no shares\n"),
    ];
    for (options, input, message) in cases {
        expect_drill(alloc, options, input.as_bytes(), ("", message, 1))?;
    }
    Ok(())
}

#[test]
fn names_digests_that_differ(rt: HostRuntime) -> Result<(), Fail> {
    let alloc = rt.alloc();
    let sound =
        "0.0+0.1 bb54aac4b89dc868ba37d9cc21b2cece\n1.0+1.1 digest mismatch in group 1\nend\n";
    let cases: [(&str, &[u8], &[u8], &str); 3] = [
        ("1/2of2,2of2", &RANDOM, &[0, 0, 0xFF, 0xFE], sound),
        (
            "2/1of1,1of1",
            &RANDOM[..14],
            &[0xFF, 0xFE],
            "0.0+1.0 digest mismatch of groups\nend\n",
        ),
        (
            "2/2of2,2of2",
            &[7; 38],
            &[0xFF, 0xFE, 0xFF, 0xFE],
            "0.0+0.1+1.0+1.1 digest mismatch in group 0\nend\n",
        ),
    ];
    for (plan, random, flips, output) in cases {
        let input = created_and_forged(&rt, alloc, plan, random, flips)?;
        expect_bytes(&DRILL, input.as_slice(), alloc, (output, "", 1))?;
    }
    Ok(())
}

#[test]
fn names_digests_that_differ_beside_expected_secrets(rt: HostRuntime) -> Result<(), Fail> {
    let alloc = rt.alloc();
    let input = created_and_forged(&rt, alloc, "1/2of2,2of2", &RANDOM, &[0, 0, 0xFF, 0xFE])?;
    for (digits, output) in [
        (
            "df41d8fe",
            "0.0+0.1 as expected\n1.0+1.1 digest mismatch in group 1\nend\n",
        ),
        (
            "df41d8ff",
            "0.0+0.1 other secret\n1.0+1.1 digest mismatch in group 1\nend\n",
        ),
    ] {
        let options = ["--expect", digits];
        expect_drill(alloc, &options, input.as_slice(), (output, "", 1))?;
    }
    Ok(())
}

/// What a creation by this plan writes, with the bits of `flips` changed in the first byte of the value of each mnemonic.
fn created_and_forged(
    rt: &impl Abort,
    alloc: Global,
    plan: &str,
    random: &[u8],
    flips: &[u8],
) -> Result<Vec<u8>, Fail> {
    let created = created(rt, alloc, &create(plan, SECRET), random);
    let created = std::str::from_utf8(created.as_slice())?;
    let mut input = Vec::new(alloc);
    for (mnemonic, flip) in created.lines().zip(flips) {
        input.extend_from_slice(forged(mnemonic, *flip)?.as_slice())?;
        input.push(b'\n')?;
    }
    Ok(input)
}

/// What a creation writes.
fn created(rt: &impl Abort, alloc: Global, words: &[&str], random: &[u8]) -> Vec<u8> {
    let created = run_on(alloc, words, random);
    equal(rt, created.status, 0);
    created.written
}

/// The names of the first members of sixteen groups, this many of each.
fn first_members(alloc: Global, members: u8) -> Result<String, AllocError> {
    let mut all = String::new(alloc);
    for group in 0..16 {
        for member in 0..members {
            let plus = if group == 0 && member == 0 { "" } else { "+" };
            all.push_str(format!(in alloc; "{plus}{group}.{member}")?.as_str())?;
        }
    }
    Ok(all)
}

#[test]
fn drills_the_most_mnemonics(rt: HostRuntime) -> Result<(), Fail> {
    let alloc = rt.alloc();
    let zeros = "00".repeat(alloc, 128)?;
    let words = ["shamir", "create", MOST, "--master-secret", zeros.as_str()];
    let random = vec![in alloc; 5u8; 32_574]?;
    let input = created(&rt, alloc, &words, random.as_slice());
    let names = first_members(alloc, 16)?;
    let line = format!(in alloc; "{names} {zeros}\nend\n")?;
    let wanted = (line.as_str(), "", 0);
    expect_bytes(&["shamir", "drill"], input.as_slice(), alloc, wanted)?;
    Ok(())
}

const EIGHT_OF_SIXTEEN: &str =
    "16/8of16,8of16,8of16,8of16,8of16,8of16,8of16,8of16,8of16,8of16,8of16,8of16,8of16,8of16,8of16,8of16";

#[test]
fn drills_a_part_of_very_many_quorums(rt: HostRuntime) -> Result<(), Fail> {
    let alloc = rt.alloc();
    let random = vec![in alloc; 9u8; 1_966]?;
    let words = create(EIGHT_OF_SIXTEEN, SECRET);
    let input = created(&rt, alloc, &words, random.as_slice());
    let names = first_members(alloc, 8)?;
    let all_but_last = names.as_str().strip_suffix("7").unwrap_or("");
    let mut output = String::new(alloc);
    for last in 7..10 {
        output.push_str(format!(in alloc; "{all_but_last}{last} {SECRET}\n")?.as_str())?;
    }
    output.push_str(format!(in alloc; "more after {all_but_last}9\n")?.as_str())?;
    let wanted = (output.as_str(), "", 0);
    expect_drill(alloc, &["--limit", "3"], input.as_slice(), wanted)
}
