//! The worked examples of `resplit`, from the command line to the lines or the message, and the status. Another program computes the
//! mnemonics.

use crate::create::MOST;
use crate::expect::equal;
use s39_fixtures::{expect_over, lines, run_over};
use sha2::{Digest, Sha256};
use std::test::Fail;

/// Share 0.0 of an extendable backup by the plan `2of3`, with the exponent 1.
const FIRST: &str =
    "yield kidney academic acid adequate building install skunk overall screw wine losing sled devote dictate weapon glen favorite blimp maiden";

/// Share 0.1.
const SECOND: &str =
    "yield kidney academic agency civil memory daughter tendency duke pulse elbow that ranked yield software buyer omit elbow category loan";

/// Share 0.0 with another sixth byte of its value.
const WRONG_FIRST: &str =
    "yield kidney academic acid adequate building install skunk owner screw wine losing sled devote dictate weapon glen toxic pecan cluster";

/// Share 0.2 with another sixth byte.
const WRONG_THIRD: &str =
    "yield kidney academic always alto crucial platform loud focus costume luxury excuse kernel romantic wits length superior rapids total yoga";

/// The share of an extendable backup of a secret of 32 bytes, with the exponent 3.
const LONG: &str =
    "domain presence academic academic adult album agree decrease inform glasses desert idea pitch capture senior smear alcohol adjust aquatic afraid deadline ambition rapids squeeze losing language says violence dining analysis scramble diploma spray";

/// The share of an extendable backup with the identifier 0x1620.
const SHORT: &str =
    "crush again academic academic device visitor diminish clogs chemical prospect expect python adequate clogs enlarge extend flexible aircraft smoking staff";

/// The share of a backup that isn't extendable.
const FIXED: &str =
    "have lunch academic academic check ancestor scroll scroll metric trial ivory shaped luxury cage painting injury bulge timber bishop threaten";

/// Share 0.0 of a backup by the plan `2of2` that isn't extendable.
const FIXED_FIRST: &str =
    "promise isolate academic acid calcium necklace club rocky modify damage inside lend industry valuable laser juice element breathe aspect browser";

/// Share 0.1 with another first byte of its value.
const FIXED_WRONG_SECOND: &str =
    "promise isolate academic agency cylinder shaped both diploma spill jump taxi public promise expand forecast process destroy platform mother legend";

/// Share 0.0 of an extendable backup by the plan `2/1of1,1of1`.
const GROUP_0: &str =
    "evoke wisdom acrobat easy dilemma anxiety strategy ugly broken yoga security unhappy lying hairy prevent downtown ending observe upstairs credit";

/// Share 1.0 with another first byte of its value.
const WRONG_GROUP_1: &str =
    "evoke wisdom beard easy buyer withdraw elbow gross starting glad speak finger story unfair total orange dramatic capital apart fridge";

const THREE_GROUPS: &str = "2/2of3,1of1,1of1";

const THREE_GROUPS_RANDOM: &[u8] =
    b"\xf9\x91\xeb\x6a\x95\xa2\x97\x36\x33\xca\x60\x6a\x23\x8a\xd0\xec\xae\xb3\x40\x69\xd2\xe9\xa2\x87\xf0\x4e";

/// The new backup of the secret of `FIRST` and `SECOND`.
const THREE_GROUPS_WRITTEN: [&str; 5] = [
    "venture marathon acrobat leaf dragon evening beaver ting bike prevent receiver fatigue teacher network cage mother galaxy galaxy tenant cultural",
    "venture marathon acrobat lily dress snapshot moment thank privacy home yoga cinema emphasis reaction criminal visual august increase devote playoff",
    "venture marathon acrobat lungs detailed grin burning ugly cylinder deal coding purple unfair scared industry tendency wolf email climate provide",
    "venture marathon beard leader crunch helpful blessing cargo friendly valid maiden bulb priority pile adequate dream sack clay toxic scatter",
    "venture marathon ceramic leader behavior unusual round blue decision execute upstairs rich prize already scatter unhappy emphasis deadline taught scout",
];

/// The same, by the plan `1of1`, from the random bytes 0x12 and 0x0A.
const ONE_WRITTEN: &str =
    "clay fawn academic academic body dish hanger strategy activity amuse losing carve upstairs pleasure easel likely general favorite trend prospect";

const THREE_OF_FOUR_RANDOM: &[u8] =
    b"\x06\xe5\xa6\xe3\x25\x0f\xe9\xa7\xff\xbb\x77\xeb\x26\x99\x23\x24\x71\xd7\x29\x43\x12\xae\xd7\x1d\xa3\x7f\xe8\x89\x35\x89\x00\x2e\xa4\x7d\x5d\xda\x10\x1d\x88\xe6\x21\x89\xc7\xb8\x80\xf8\x8d\x4e\x7e\x14\x2a\xbd\xd7\x29\x2f\x33\x76\xad\xb6\xaa\xf8\x1b";

/// The new backup of the secret of `LONG`.
const THREE_OF_FOUR_WRITTEN: [&str; 4] = [
    "artwork cubic academic acne academic antenna penalty vintage symbolic lilac canyon civil geology gesture security tension avoid cinema exercise warmth election profile staff pencil venture symbolic primary submit program alien dilemma herd sunlight",
    "artwork cubic academic agree ajar primary smirk firefly secret daisy clothes veteran rainbow mixture item legend gasoline hanger grin drift carve volume increase sharp again similar become marvel answer hesitate taste elevator explain",
    "artwork cubic academic amazing adapt license kidney omit maiden skunk penalty mouse merchant cleanup oasis withdraw increase tofu sweater fatal custody bulge numerous artwork hearing rich practice froth swimming dining wildlife purple rhythm",
    "artwork cubic academic arcade again clock boundary dynamic mobile grocery paid elegant energy spill clogs paid cage pregnant victim music husky elegant drove garden orange pistol born ancient isolate frequent bike organize cricket",
];

/// The share of an extendable backup of a secret of 128 bytes.
const LONGEST: &str =
    "duckling evil academic academic acid biology excuse math duckling year ladle painting security gesture eclipse flavor leaves chew station curly involve spark plunge wealthy exchange finger ultimate tolerate weapon library shrimp fake terminal physics meaning grownup scout crowd loud wrap element burning member machine valuable document bulge clock satoshi garbage teacher identify thumb echo smirk famous result extend medical stilt living mineral system arcade bike critical river spew rebuild fused miracle quiet network airport dramatic dance surprise ruin lobe amount desire sympathy being desert parcel wireless furl darkness permit wrote junction install criminal morning birthday language library fatal prepare speak carbon omit elegant oral diminish income best friendly window leaf";

/// The SHA-256 of the 256 lines of the plan `MOST` and 32,574 bytes 11.
const MOST_DIGEST: [u8; 32] = [
    0xC4, 0x73, 0x7D, 0x6F, 0x89, 0xB8, 0x16, 0xB5, 0xAA, 0x2A, 0x3F, 0xAC, 0xB6, 0xFB, 0x09, 0xEB,
    0x72, 0xB3, 0x06, 0x25, 0x44, 0x84, 0xD0, 0x8C, 0x48, 0x4A, 0xB6, 0x86, 0x71, 0xCD, 0x2A, 0xC9,
];

/// A plan, the random bytes, the lines that are given and those that are written.
type Row = (
    &'static str,
    &'static [u8],
    &'static [&'static str],
    &'static [&'static str],
);

#[test]
fn splits_a_backup_anew(rt: HostRuntime) -> Result<(), Fail> {
    let alloc = rt.alloc();
    let rows: [Row; 4] = [
        (
            THREE_GROUPS,
            THREE_GROUPS_RANDOM,
            &[FIRST, SECOND],
            &THREE_GROUPS_WRITTEN,
        ),
        // The least quorum decides, whatever another share is.
        (
            THREE_GROUPS,
            THREE_GROUPS_RANDOM,
            &["# a note", WRONG_THIRD, SECOND, FIRST],
            &THREE_GROUPS_WRITTEN,
        ),
        // A line feed at the end of the file is a random byte.
        ("1of1", b"\x12\n", &[FIRST, SECOND], &[ONE_WRITTEN]),
        (
            "3of4",
            THREE_OF_FOUR_RANDOM,
            &[LONG],
            &THREE_OF_FOUR_WRITTEN,
        ),
    ];
    for (plan, random, given, written) in rows {
        let words = ["shamir", "resplit", plan, "--random-file", "drawn"];
        let input = lines(alloc, given)?;
        let output = lines(alloc, written)?;
        let wanted = (output.as_str(), "", 0);
        expect_over(
            &[("drawn", random)],
            &words,
            input.as_bytes(),
            alloc,
            wanted,
        )?;
    }
    Ok(())
}

/// A plan, the name of the file, the random bytes in the file `drawn`, the lines, the message and the status.
type Refused = (
    &'static str,
    &'static str,
    &'static [u8],
    &'static [&'static str],
    &'static str,
    u8,
);

// If several causes apply, the first is told.
#[test]
fn refuses_the_first_that_applies(rt: HostRuntime) -> Result<(), Fail> {
    let alloc = rt.alloc();
    let needs_two = "43 random bytes: 2 needed";
    let rows: [Refused; 22] = [
        ("2of", "none", b"", &["ducklin"], "31 bad plan", 1),
        (
            "2/2of3",
            "none",
            b"",
            &["ducklin"],
            "32 bad number of groups in plan",
            1,
        ),
        (
            "3of2",
            "none",
            b"",
            &["ducklin"],
            "33 bad number of members in plan group 0",
            1,
        ),
        (
            "1of3",
            "none",
            b"",
            &["ducklin"],
            "34 one of many in plan group 0",
            1,
        ),
        (
            "1of1",
            "none",
            b"",
            &["ducklin"],
            "none: entity not found",
            3,
        ),
        (
            "1of1",
            "drawn",
            b"",
            &["ducklin"],
            "line 1: 11 unknown word 1",
            1,
        ),
        (
            "1of1",
            "drawn",
            b"",
            &[FIRST, "ducklin", FIXED],
            "line 2: 11 unknown word 1",
            1,
        ),
        (
            "1of1",
            "drawn",
            b"",
            &[FIRST, FIXED],
            "line 2: 21 other identifier",
            1,
        ),
        ("1of1", "drawn", b"", &["# a note"], "29 no shares", 1),
        (
            "1of1",
            "drawn",
            b"",
            &[FIRST],
            "30 incomplete: 0 of 1 groups",
            1,
        ),
        (
            "1of1",
            "drawn",
            b"",
            &[FIXED_FIRST],
            "30 incomplete: 0 of 1 groups",
            1,
        ),
        (
            "1of1",
            "drawn",
            b"",
            &[WRONG_FIRST, SECOND, WRONG_THIRD],
            "51 digest mismatch in group 0",
            1,
        ),
        (
            "1of1",
            "drawn",
            b"",
            &[FIXED_FIRST, FIXED_WRONG_SECOND],
            "51 digest mismatch in group 0",
            1,
        ),
        (
            "1of1",
            "drawn",
            b"",
            &[GROUP_0, WRONG_GROUP_1],
            "51 digest mismatch of groups",
            1,
        ),
        (
            "1of1",
            "drawn",
            b"",
            &[FIXED],
            "67 backup isn't extendable",
            1,
        ),
        ("1of1", "drawn", b"", &[SHORT], needs_two, 1),
        ("1of1", "drawn", b"\x16", &[SHORT], needs_two, 1),
        ("1of1", "drawn", b"\x16\x20\n", &[SHORT], needs_two, 1),
        ("1of1", "drawn", b"\x17\x20\n", &[SHORT], needs_two, 1),
        (
            "2of2",
            "drawn",
            b"\x16\x20",
            &[SHORT],
            "43 random bytes: 14 needed",
            1,
        ),
        (
            "1of1",
            "drawn",
            b"\x16\x20",
            &[SHORT],
            "68 same identifier",
            1,
        ),
        (
            "1of1",
            "drawn",
            b"\x96\x20",
            &[SHORT],
            "68 same identifier",
            1,
        ),
    ];
    for (plan, name, random, given, told, status) in rows {
        let words = ["shamir", "resplit", plan, "--random-file", name];
        let input = lines(alloc, given)?;
        let message = format!(in alloc; "shamir: {told}\n")?;
        let wanted = ("", message.as_str(), status);
        expect_over(
            &[("drawn", random)],
            &words,
            input.as_bytes(),
            alloc,
            wanted,
        )?;
    }
    Ok(())
}

#[test]
fn takes_the_most_random_bytes(rt: HostRuntime) -> Result<(), Fail> {
    let alloc = rt.alloc();
    let words = ["shamir", "resplit", MOST, "--random-file=drawn"];
    let input = lines(alloc, &[LONGEST])?;
    let random = vec![in alloc; 11u8; 32_574]?;
    let run = run_over(
        &[("drawn", random.as_slice())],
        alloc,
        &words,
        input.as_bytes(),
    );
    equal(&rt, (run.status, run.told.is_empty()), (0, true));
    equal(&rt, Sha256::digest(run.written.as_slice()), MOST_DIGEST);
    let message = "shamir: 43 random bytes: 32574 needed\n";
    for count in [32_573, 32_575, 40_000] {
        let random = vec![in alloc; 11u8; count]?;
        let files = [("drawn", random.as_slice())];
        expect_over(&files, &words, input.as_bytes(), alloc, ("", message, 1))?;
    }
    Ok(())
}
