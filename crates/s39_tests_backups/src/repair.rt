//! The worked examples of `repair`, from the command line to the lines, the message and the status. Another program
//! computed them.

use crate::expected::expect_refusal;
use s39_fixtures::{
    ONE_OF_ONE, ONE_OF_ONE_BAD_CHECKSUM, ONE_OF_ONE_OF_THE_OTHER_FLAG, ONE_OF_ONE_TWO_WORDS_LOST,
    ONE_OF_ONE_WITHOUT_THE_FLAG, REPAIR, TWO_NEEDED_MEMBER_0, TWO_NEEDED_MEMBER_2, expect_run,
    lines,
};
use std::test::Fail;

#[test]
fn finds_lost_words(rt: HostRuntime) -> Result<(), Fail> {
    let alloc = rt.alloc();
    let lost = [
        ONE_OF_ONE_TWO_WORDS_LOST,
        "duckling enlarge academic academic agency result length solution fridge kidney coal piece deal husband erode duke ajar ? ? ?",
        "duckling enlarge academic academic agency result le? so? fridge kidney coal piece deal husband erode duke ajar critical decision keyboard",
        "duck? enla? acad? acad? agen? resu? leng? solu? frid? kidn? coal? piec? deal? husb? erod? duke? ajar? crit? deci? keyb?",
        "  DUCKLING enlarge\tacademic academic agency Result LE? solution fridge kidney coal piece deal husband erode duke ajar critical decision keyboard\r",
        ONE_OF_ONE,
    ];
    let output = lines(alloc, &[ONE_OF_ONE])?;
    for line in lost {
        expect_run(&REPAIR, line, alloc, (output.as_str(), "", 0))?;
    }
    Ok(())
}

#[test]
fn writes_both_mnemonics_that_fit(rt: HostRuntime) -> Result<(), Fail> {
    let alloc = rt.alloc();
    let both = [ONE_OF_ONE, ONE_OF_ONE_OF_THE_OTHER_FLAG];
    let output = lines(alloc, &both)?;
    let line = ONE_OF_ONE_WITHOUT_THE_FLAG;
    expect_run(&REPAIR, line, alloc, (output.as_str(), "", 1))?;
    // The first words of another mnemonic of the backup tell which is right.
    let input =
        "duckling enlarge ? academic agency result length solution fridge kidney coal piece deal husband erode duke ajar critical decision keyboard";
    let output = lines(alloc, &[ONE_OF_ONE])?;
    expect_run(&REPAIR, input, alloc, (output.as_str(), "", 0))
}

#[test]
fn says_why_a_line_has_no_mnemonic(rt: HostRuntime) -> Result<(), Fail> {
    let alloc = rt.alloc();
    let cases = [
        (
            "duckling enlarge academic academic agency result length solution fridge kidney coal piece deal husband erode duke ? ? ? ?",
            "line 1: 19 4 unreadable words: at most 3",
        ),
        (
            "duckling enlarge academic academic ? result solution length fridge kidney coal piece deal husband erode duke ajar critical decision keyboard",
            "line 1: 17 no mnemonic has these words",
        ),
        (
            "duckling enlarge academic academic agency result lend solution fridge kidney coal piece deal husband erode duke ajar critical decision keyboard",
            "line 1: 18 bad checksum: if one word is wrong, it is word 7",
        ),
        (
            ONE_OF_ONE_BAD_CHECKSUM,
            "line 1: 18 bad checksum: if one word is wrong, it is word 20",
        ),
        (
            "duckling enlarge academic academic agency result solution length fridge kidney coal piece deal husband erode duke ajar critical decision keyboard",
            "line 1: 13 bad checksum",
        ),
        (
            "duckling enlarge academic academic agency result ze? solution fridge kidney coal piece deal husband erode duke ajar critical decision keyboard",
            "line 1: 18 bad checksum: if one word is wrong, it is word 7",
        ),
        (
            "duckling enlarge academic academic agency result zz? solution fridge kidney coal piece deal husband erode duke ajar critical decision keyboard",
            "line 1: 11 unknown word 7",
        ),
        (
            "duckling enlarge academic academic agency result ?ength solution fridge kidney coal piece deal husband erode duke ajar critical decision keyboard",
            "line 1: 11 unknown word 7",
        ),
    ];
    for (line, refusal) in cases {
        expect_refusal(alloc, &REPAIR, line, refusal)?;
    }
    Ok(())
}

#[test]
fn answers_lines_up_to_a_refusal(rt: HostRuntime) -> Result<(), Fail> {
    let alloc = rt.alloc();
    let lost =
        "shadow pistol academic always ade? wildlife fancy gross oasis ? mustang wrist rescue view sh? owner flip making coding armed";
    let given = [
        "# papers of two backups",
        lost,
        "",
        ONE_OF_ONE_WITHOUT_THE_FLAG,
        "\t",
        TWO_NEEDED_MEMBER_0,
    ];
    let written = [
        TWO_NEEDED_MEMBER_2,
        ONE_OF_ONE,
        ONE_OF_ONE_OF_THE_OTHER_FLAG,
        TWO_NEEDED_MEMBER_0,
    ];
    let all = lines(alloc, &given)?;
    let output = lines(alloc, &written)?;
    expect_run(&REPAIR, all.as_str(), alloc, (output.as_str(), "", 1))?;
    let mut refused = lines(alloc, &given)?;
    refused.push_str("? ? ?\n")?;
    refused.push_str(all.as_str())?;
    let message = "shamir: line 7: 12 3 words make no share\n";
    expect_run(
        &REPAIR,
        refused.as_str(),
        alloc,
        (output.as_str(), message, 1),
    )?;
    // Nothing is said of an input without a mnemonic.
    expect_run(&REPAIR, "# a note\n\n", alloc, ("", "", 0))?;
    expect_run(&REPAIR, "", alloc, ("", "", 0))
}
