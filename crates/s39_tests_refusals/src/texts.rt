//! The texts of faults.

use crate::expect::{equal, holds};
use s39_backup::{Mismatch, PlanError, TooFew};
use s39_fixtures::{REPAIR, expect_run};
use s39_input::{LineRefusal, Refusal};
use s39_kdf::{BadFingerprint, BadPassphrase};
use s39_refusal::Cause;
use s39_repair::RepairError;
use s39_set::{BadNames, SetError, SetLack};
use s39_text::{FaultText, RefusalText};
use std::alloc::Global;
use std::process::Abort;
use std::test::Fail;

/// The refusal of a run has this text, with line 7 where it has a line.
fn expect_text(rt: &impl Abort, alloc: Global, refusal: Refusal, text: &str) -> Result<(), Fail> {
    let line = match refusal {
        Refusal::Line(_) => Some(7),
        _ => None,
    };
    let told = format!(in alloc; "{}", FaultText::of(line, refusal.cause()))?;
    let wanted = format!(in alloc; "shamir: {text}")?;
    equal(rt, told.as_str(), wanted.as_str());
    Ok(())
}

#[test]
fn names_refusals_of_shares(rt: HostRuntime) -> Result<(), Fail> {
    let conflicting = SetError::ConflictingShare {
        group: 3,
        member: 12,
    };
    let cases = [
        (SetError::OtherIdentifier, "line 7: 21 other identifier"),
        (
            SetError::OtherExtendable,
            "line 7: 22 other extendable flag",
        ),
        (SetError::OtherExponent, "line 7: 23 other exponent"),
        (
            SetError::OtherGroupThreshold,
            "line 7: 24 other group threshold",
        ),
        (SetError::OtherGroupCount, "line 7: 25 other group count"),
        (SetError::OtherLength, "line 7: 26 other length"),
        (
            SetError::OtherMemberThreshold { group: 15 },
            "line 7: 27 other member threshold in group 15",
        ),
        (conflicting, "line 7: 28 conflicting share 3.12"),
    ];
    for (error, text) in cases {
        let refusal = Refusal::Line(LineRefusal::Set(error));
        expect_text(&rt, rt.alloc(), refusal, text)?;
    }
    Ok(())
}

#[test]
fn names_refusals_of_marks(rt: HostRuntime) -> Result<(), Fail> {
    let cases = [
        (
            RepairError::UnknownWord { position: 110 },
            "line 7: 11 unknown word 110",
        ),
        (
            RepairError::WordCount { words: 341 },
            "line 7: 12 341 words make no share",
        ),
        (
            RepairError::UnreadableWords { places: 110 },
            "line 7: 19 110 unreadable words: at most 3",
        ),
        (
            RepairError::NoMnemonic,
            "line 7: 17 no mnemonic has these words",
        ),
        (
            RepairError::WrongWord { position: 110 },
            "line 7: 18 bad checksum: if one word is wrong, it is word 110",
        ),
        (RepairError::BadChecksum, "line 7: 13 bad checksum"),
        (RepairError::BadPadding, "line 7: 14 bad padding"),
        (
            RepairError::GroupThreshold,
            "line 7: 15 group threshold above group count",
        ),
    ];
    for (error, text) in cases {
        let refusal = Refusal::Line(LineRefusal::Marks(error));
        expect_text(&rt, rt.alloc(), refusal, text)?;
    }
    Ok(())
}

#[test]
fn names_refusals_of_sets(rt: HostRuntime) -> Result<(), Fail> {
    let incomplete = SetLack::Incomplete {
        complete: 1,
        required: 2,
    };
    let few = TooFew {
        group: 15,
        member: 14,
        members: 1,
        threshold: 13,
        others: 2,
        required: 12,
    };
    let cases = [
        (Refusal::Lack(SetLack::NoShares), "29 no shares"),
        (Refusal::Lack(incomplete), "30 incomplete: 1 of 2 groups"),
        (Refusal::NotAQuorum, "62 cursor is no quorum"),
        (
            Refusal::NotInPlan {
                group: 12,
                member: 3,
            },
            "64 name 12.3 not in plan",
        ),
        (Refusal::OtherPlan, "65 other plan"),
        (
            Refusal::Undetermined(few),
            "66 cannot tell 15.14: 1 of 13 members, 2 of 12 other groups",
        ),
        (
            Refusal::Passphrase(BadPassphrase { position: 5 }),
            "41 passphrase byte 5 not printable",
        ),
        (
            Refusal::DigestMismatch(Mismatch::InGroup { group: 2 }),
            "51 digest mismatch in group 2",
        ),
        (
            Refusal::DigestMismatch(Mismatch::OfGroups),
            "51 digest mismatch of groups",
        ),
        (Refusal::OtherSecret, "52 other secret"),
        (Refusal::NotExtendable, "67 backup isn't extendable"),
        (Refusal::SameIdentifier, "68 same identifier"),
    ];
    for (refusal, text) in cases {
        expect_text(&rt, rt.alloc(), refusal, text)?;
    }
    Ok(())
}

#[test]
fn names_the_refusal_of_names(rt: HostRuntime) -> Result<(), Fail> {
    let told = format!(in rt.alloc(); "{}", FaultText::of(None, BadNames.cause()))?;
    equal(&rt, told.as_str(), "shamir: 63 bad list of names");
    Ok(())
}

#[test]
fn names_the_refusal_of_a_fingerprint(rt: HostRuntime) -> Result<(), Fail> {
    let told = format!(in rt.alloc(); "{}", FaultText::of(None, BadFingerprint.cause()))?;
    equal(&rt, told.as_str(), "shamir: 44 bad fingerprint");
    Ok(())
}

#[test]
fn names_refusals_of_plans(rt: HostRuntime) -> Result<(), Fail> {
    let alloc = rt.alloc();
    for (error, text) in [
        (PlanError::BadPlan, "shamir: 31 bad plan"),
        (
            PlanError::PlanGroups,
            "shamir: 32 bad number of groups in plan",
        ),
        (
            PlanError::PlanMembers { group: 15 },
            "shamir: 33 bad number of members in plan group 15",
        ),
        (
            PlanError::OneOfMany { group: 9 },
            "shamir: 34 one of many in plan group 9",
        ),
    ] {
        let told = format!(in alloc; "{}", FaultText::of(None, error.cause()))?;
        equal(&rt, told.as_str(), text);
    }
    Ok(())
}

#[test]
fn no_refusal_has_a_number_of_none(rt: HostRuntime) -> Result<(), Fail> {
    for number in 0..=255 {
        let is_told = RefusalText::of(Cause::of(number)).is_some();
        // An earlier version gave 16 to another refusal than those of today.
        let is_refusal = match number {
            11..=15 | 17..=19 | 21..=34 | 41..=44 | 51 | 52 | 61..=68 | 71..=73 => true,
            _ => false,
        };
        equal(&rt, (number, is_told), (number, is_refusal));
    }
    Ok(())
}

/// The message with the greatest line, the greatest number, and the longest text with the greatest details that it can have.
/// `numbers` of `s39_cli::laws` has it too, with the line feed behind it.
const LONGEST: &str =
    "shamir: line 18446744073709551615: 255 cannot tell 255.255: 255 of 255 members, 255 of 255 other groups";

/// The messages of the refusals with this number at the greatest line are no longer than the longest, whatever their details are.
fn expect_short(rt: &impl Abort, alloc: Global, number: u8) -> Result<(), Fail> {
    let greatest = [
        (u64::MAX, 0),
        (u64::MAX, u64::MAX),
        (16, 0),
        (255, 0),
        (255, 255),
        (65535, 4294967295),
    ];
    for (first, second) in greatest {
        let cause = Cause::new(number, first, second);
        let told = format!(in alloc; "{}", FaultText::of(Some(u64::MAX), cause))?;
        holds(rt, told.len() <= LONGEST.len());
    }
    Ok(())
}

#[test]
fn no_message_is_longer_than_the_longest(rt: HostRuntime) -> Result<(), Fail> {
    let alloc = rt.alloc();
    let greatest = FaultText::AtLine {
        line: u64::MAX,
        code: 255,
        text: RefusalText::Undetermined(255, 255, 255, 255, 255, 255),
    };
    equal(&rt, format!(in alloc; "{greatest}")?.as_str(), LONGEST);
    for number in 0..=255 {
        expect_short(&rt, alloc, number)?;
    }
    Ok(())
}

// Another program made this mnemonic of 110 words, for the value of the bytes 0 to 127. Its last word is `olympic`, which was
// changed.
const LAST_OF_110: &str =
    "academic disaster academic academic academic academic eclipse adult away extra legs aluminum clay pancake satisfy argue disaster usual agency behavior evoke editor employer born garlic military losing busy industry tendency senior ceramic luxury demand amuse clothes oral level escape crisis prune space mansion deal scene chubby slap destroy stick increase auction divorce ultimate says explain early acrobat biology metric email blanket graduate solution episode cover railroad best exercise drove aircraft fiber fantasy failure finance much flexible gray petition staff friendly jewelry visitor brave gesture material endless focus grownup parcel muscle object helpful random together surprise identify sheriff diminish campus install sympathy luck funding jury vampire station paid prayer duckling academic";

#[test]
fn writes_a_long_message_whole(rt: HostRuntime) -> Result<(), Fail> {
    let alloc = rt.alloc();
    let blank = "\n".repeat(alloc, 999)?;
    let input = format!(in alloc; "{blank}{LAST_OF_110}\n")?;
    let told = "shamir: line 1000: 18 bad checksum: if one word is wrong, it is word 110\n";
    expect_run(&REPAIR, input.as_str(), alloc, ("", told, 1))
}
