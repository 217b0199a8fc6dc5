//! Tests of `s39_backup`: encrypted secrets that are split. A plain reading of the standard in Python computed the mnemonics, of
//! backups that it created and of new ones, and the secrets that both recover with each passphrase.
use crate::expect::{equal, holds};
use s39_backup::{
    Created, Mismatch, Plan, ResplitError, create_from_encrypted, recover_by, resplit,
};
use s39_kdf::{Params, check_secret};
use s39_set::{SetLack, ShareSet, parse_quorum};
use s39_words::{parse, print};
use std::process::Abort;
use std::test::Fail;

/// Share 0.0 of an extendable backup by the plan `2of3`, with the exponent 1.
const FIRST: &[u8] =
    b"yield kidney academic acid adequate building install skunk overall screw wine \
      losing sled devote dictate weapon glen favorite blimp maiden";

/// Share 0.1.
const SECOND: &[u8] =
    b"yield kidney academic agency civil memory daughter tendency duke pulse elbow \
      that ranked yield software buyer omit elbow category loan";

/// Share 0.0 with another sixth byte of its value.
const WRONG_FIRST: &[u8] =
    b"yield kidney academic acid adequate building install skunk owner screw wine \
      losing sled devote dictate weapon glen toxic pecan cluster";

/// Share 0.2 with another sixth byte.
const WRONG_THIRD: &[u8] =
    b"yield kidney academic always alto crucial platform loud focus costume luxury \
      excuse kernel romantic wits length superior rapids total yoga";

/// The share of an extendable backup of a secret of 32 bytes, with the exponent 3.
const LONG: &[u8] = b"domain presence academic academic adult album agree decrease inform glasses \
      desert idea pitch capture senior smear alcohol adjust aquatic afraid deadline \
      ambition rapids squeeze losing language says violence dining analysis scramble \
      diploma spray";

/// The share of an extendable backup with the identifier 0x1620.
const SHORT: &[u8] =
    b"crush again academic academic device visitor diminish clogs chemical prospect \
      expect python adequate clogs enlarge extend flexible aircraft smoking staff";

/// The share of a backup that isn't extendable.
const FIXED: &[u8] =
    b"have lunch academic academic check ancestor scroll scroll metric trial ivory \
      shaped luxury cage painting injury bulge timber bishop threaten";

/// Share 0.0 of a backup by the plan `2of2` that isn't extendable.
const FIXED_FIRST: &[u8] =
    b"promise isolate academic acid calcium necklace club rocky modify damage inside \
      lend industry valuable laser juice element breathe aspect browser";

/// Share 0.1 with another first byte of its value.
const FIXED_WRONG_SECOND: &[u8] =
    b"promise isolate academic agency cylinder shaped both diploma spill jump taxi \
      public promise expand forecast process destroy platform mother legend";

/// Share 0.0 of an extendable backup by the plan `2/1of1,1of1`.
const GROUP_0: &[u8] =
    b"evoke wisdom acrobat easy dilemma anxiety strategy ugly broken yoga security \
      unhappy lying hairy prevent downtown ending observe upstairs credit";

/// Share 1.0 with another first byte of its value.
const WRONG_GROUP_1: &[u8] =
    b"evoke wisdom beard easy buyer withdraw elbow gross starting glad speak finger \
      story unfair total orange dramatic capital apart fridge";

/// The plan, the random bytes and the mnemonics of a new backup.
#[derive(Clone, Copy)]
struct New {
    plan: &'static str,
    random: &'static [u8],
    mnemonics: &'static [&'static [u8]],
}

/// The new backup of the secret of `FIRST` and `SECOND`.
const THREE_GROUPS: New = New {
    plan: "2/2of3,1of1,1of1",
    random: b"\xf9\x91\xeb\x6a\x95\xa2\x97\x36\x33\xca\x60\x6a\x23\x8a\xd0\xec\xae\xb3\x40\x69\xd2\xe9\xa2\x87\xf0\x4e",
    mnemonics: &[
        b"venture marathon acrobat leaf dragon evening beaver ting bike prevent receiver fatigue teacher network cage mother galaxy galaxy tenant cultural",
        b"venture marathon acrobat lily dress snapshot moment thank privacy home yoga cinema emphasis reaction criminal visual august increase devote playoff",
        b"venture marathon acrobat lungs detailed grin burning ugly cylinder deal coding purple unfair scared industry tendency wolf email climate provide",
        b"venture marathon beard leader crunch helpful blessing cargo friendly valid maiden bulb priority pile adequate dream sack clay toxic scatter",
        b"venture marathon ceramic leader behavior unusual round blue decision execute upstairs rich prize already scatter unhappy emphasis deadline taught scout",
    ],
};

/// The new backup of the secret of `LONG`.
const THREE_OF_FOUR: New = New {
    plan: "3of4",
    random: b"\x06\xe5\xa6\xe3\x25\x0f\xe9\xa7\xff\xbb\x77\xeb\x26\x99\x23\x24\x71\xd7\x29\x43\x12\xae\xd7\x1d\xa3\x7f\xe8\x89\x35\x89\x00\x2e\xa4\x7d\x5d\xda\x10\x1d\x88\xe6\x21\x89\xc7\xb8\x80\xf8\x8d\x4e\x7e\x14\x2a\xbd\xd7\x29\x2f\x33\x76\xad\xb6\xaa\xf8\x1b",
    mnemonics: &[
        b"artwork cubic academic acne academic antenna penalty vintage symbolic lilac canyon civil geology gesture security tension avoid cinema exercise warmth election profile staff pencil venture symbolic primary submit program alien dilemma herd sunlight",
        b"artwork cubic academic agree ajar primary smirk firefly secret daisy clothes veteran rainbow mixture item legend gasoline hanger grin drift carve volume increase sharp again similar become marvel answer hesitate taste elevator explain",
        b"artwork cubic academic amazing adapt license kidney omit maiden skunk penalty mouse merchant cleanup oasis withdraw increase tofu sweater fatal custody bulge numerous artwork hearing rich practice froth swimming dining wildlife purple rhythm",
        b"artwork cubic academic arcade again clock boundary dynamic mobile grocery paid elegant energy spill clogs paid cage pregnant victim music husky elegant drove garden orange pistol born ancient isolate frequent bike organize cricket",
    ],
};

fn set_of(lines: &[&[u8]]) -> Result<ShareSet, Fail> {
    let mut set = ShareSet::new();
    for line in lines {
        set.add(parse(line)?)?;
    }
    Ok(set)
}

#[test]
fn split_anew(rt: HostRuntime) -> Result<(), Fail> {
    for (lines, new) in [
        ([FIRST, SECOND].as_slice(), THREE_GROUPS),
        // The least quorum decides, whatever another share is.
        (&[FIRST, SECOND, WRONG_THIRD], THREE_GROUPS),
        (&[LONG], THREE_OF_FOUR),
    ] {
        let plan = Plan::parse(new.plan)?;
        let mut created = Created::new();
        resplit(&plan, &set_of(lines)?, new.random, &mut created)?;
        equal(&rt, created.shares().len(), new.mnemonics.len());
        for (share, mnemonic) in created.shares().iter().zip(new.mnemonics) {
            equal(&rt, print(share).as_slice(), *mnemonic);
        }
    }
    Ok(())
}

// Old and new shares recover the same secrets, with the passphrase of the creation and with another, which isn't printable.
#[test]
fn the_same_secrets(rt: HostRuntime) -> Result<(), Fail> {
    let old = set_of(&[FIRST, SECOND])?;
    let plan = Plan::parse(THREE_GROUPS.plan)?;
    let mut created = Created::new();
    resplit(&plan, &old, THREE_GROUPS.random, &mut created)?;
    let mut new = ShareSet::new();
    for share in created.shares() {
        new.add(parse(&print(share))?)?;
    }
    let secret = *b"\x3c\xa6\xdc\xf5\xdd\x72\x78\x59\x69\xc4\xd5\x3c\x38\xf2\x05\x10";
    let other = *b"\x97\x42\x3e\xee\x72\xfa\x90\x01\xea\xe3\x2d\x94\x13\x72\xe6\x1f";
    for (passphrase, secret) in [(b"first".as_slice(), secret), (b"\x80", other)] {
        for (set, names) in [(&old, b"0.0+0.1".as_slice()), (&new, b"1.0+2.0")] {
            let recovered = recover_by(set, &parse_quorum(names)?, passphrase)?;
            equal(&rt, recovered.as_slice(), secret.as_slice());
        }
    }
    Ok(())
}

/// The random bytes and the first cause for which they, a set and a plan give no shares.
type Refused = (
    &'static [&'static [u8]],
    &'static str,
    &'static [u8],
    ResplitError,
);

// If two causes apply, the earlier is told: each row but those of 43 and 68 has a wrong number of random bytes.
#[test]
fn refused_in_order(rt: HostRuntime) -> Result<(), Fail> {
    let few = ResplitError::Lack(SetLack::Incomplete {
        complete: 0,
        required: 1,
    });
    let in_group = ResplitError::DigestMismatch(Mismatch::InGroup { group: 0 });
    let of_groups = ResplitError::DigestMismatch(Mismatch::OfGroups);
    let rows: [Refused; 12] = [
        (&[], "1of1", b"", ResplitError::Lack(SetLack::NoShares)),
        (&[FIRST], "1of1", b"", few),
        (&[FIXED_FIRST], "1of1", b"", few),
        (&[WRONG_FIRST, SECOND], "1of1", b"", in_group),
        (&[WRONG_FIRST, SECOND, WRONG_THIRD], "1of1", b"", in_group),
        (&[FIXED_FIRST, FIXED_WRONG_SECOND], "1of1", b"", in_group),
        (&[GROUP_0, WRONG_GROUP_1], "1of1", b"", of_groups),
        (&[FIXED], "1of1", b"", ResplitError::NotExtendable),
        (
            &[SHORT],
            "1of1",
            b"\x16\x20\x00",
            ResplitError::BadRandomLength { needed: 2 },
        ),
        (
            &[SHORT],
            "2of2",
            b"\x16\x20",
            ResplitError::BadRandomLength { needed: 14 },
        ),
        (&[SHORT], "1of1", b"\x16\x20", ResplitError::SameIdentifier),
        (&[SHORT], "1of1", b"\x96\x20", ResplitError::SameIdentifier),
    ];
    let mut created = Created::new();
    let plan = Plan::parse(THREE_OF_FOUR.plan)?;
    resplit(&plan, &set_of(&[LONG])?, THREE_OF_FOUR.random, &mut created)?;
    for (lines, plan, random, error) in rows {
        let plan = Plan::parse(plan)?;
        let refused = resplit(&plan, &set_of(lines)?, random, &mut created);
        equal(&rt, refused, Err(error));
        equal(&rt, created.shares().len(), 4);
    }
    Ok(())
}

/// An encrypted secret with its parameters, a plan, random bytes and the mnemonics of the new backup.
type FromEncrypted = (
    &'static [u8],
    Params,
    &'static str,
    &'static [u8],
    &'static [&'static [u8]],
);

/// The encrypted secret of the first row, with the passphrase `larch`.
const ENCRYPTED: &[u8] = b"\x46\x55\xb0\xab\x9e\xe6\x0b\xe2\x90\x63\xec\x1b\xb8\xe8\x03\x91";

#[test]
fn from_encrypted(rt: HostRuntime) -> Result<(), Fail> {
    let rows: [FromEncrypted; 2] = [
        (
            ENCRYPTED,
            Params {
                id: 21001,
                extendable: true,
                exponent: 1,
            },
            "2of3",
            b"\xa5\x8a\x72\xac\x83\x15\x7a\xb4\x41\xde\xac\x37\xbc\xa9",
            &[
                b"estimate fawn academic acid crisis herd indicate promise legal standard chubby educate venture unkind acne object thumb retailer inmate infant",
                b"estimate fawn academic agency alcohol tofu video midst moisture game wits ultimate brave crazy fatigue general criminal bucket forget pancake",
                b"estimate fawn academic always diet glasses inmate says graduate sweater veteran replace peaceful ladybug party skin reject impulse dream animal",
            ],
        ),
        (
            b"\xea\xef\x65\xf5\xfe\xb3\x7f\xb0\xd2\x8a\x4e\x80\x89\x0c\x03\x79\xa5\x92\x63\x8d\xde\x3a\x77\xe3",
            Params {
                id: 402,
                extendable: true,
                exponent: 0,
            },
            "2/1of1,2of2",
            b"\x60\x32\xbc\xb7\x67\x21\x7f\xba\x15\xcc\xbf\x9b\xb5\x79\x30\x24\x36\x71\x71\xf0\xee\x2d\xa7\x90\xb0\x4c\x95\x1a\x3d\xa3\x5f\x0e\xc9\xa4\x6d\xfc\x1f\x19\xcf\x17\x86\xce",
            &[
                b"roster moment acrobat easy acquire jerky symbolic evidence penalty makeup veteran wits decision uncover hush python treat timely iris coal lilac hour says hesitate ordinary dive march",
                b"roster moment beard echo acquire impulse bundle phrase pharmacy slice scholar visual silent lizard salt surface grownup inmate epidemic ceiling tricycle explain epidemic switch flip erode garden",
                b"roster moment beard email acne provide rebound provide tracks blind retreat emission smug venture else aviation valuable acid render mother manager party fortune hush typical rebuild remind",
            ],
        ),
    ];
    let mut created = Created::new();
    for (encrypted, old, plan, random, mnemonics) in rows {
        let bytes = check_secret(encrypted)?;
        create_from_encrypted(&Plan::parse(plan)?, old, &bytes, random, &mut created)?;
        equal(&rt, created.shares().len(), mnemonics.len());
        for (share, mnemonic) in created.shares().iter().zip(mnemonics) {
            equal(&rt, print(share).as_slice(), *mnemonic);
        }
    }
    Ok(())
}

// The new shares recover the secret that the passphrase decrypts.
#[test]
fn the_secret_that_is_encrypted(rt: HostRuntime) -> Result<(), Fail> {
    let old = Params {
        id: 21001,
        extendable: true,
        exponent: 1,
    };
    let plan = Plan::parse("2of2")?;
    let random = b"\x11\x02\x03\x04\x05\x06\x07\x08\x09\x0a\x0b\x0c\x0d\x0e";
    let mut created = Created::new();
    create_from_encrypted(&plan, old, &check_secret(ENCRYPTED)?, random, &mut created)?;
    let mut new = ShareSet::new();
    for share in created.shares() {
        new.add(parse(&print(share))?)?;
    }
    let recovered = recover_by(&new, &parse_quorum(b"0.0+0.1")?, b"larch")?;
    let secret = *b"\x04\xb8\x5e\xc5\xa6\x30\x9c\x20\x53\x09\x43\xf1\x66\xbd\xa9\xca";
    equal(&rt, recovered.as_slice(), secret.as_slice());
    Ok(())
}

// If two causes apply, the earlier is told, and the shares stay.
#[test]
fn encrypted_refused_in_order(rt: HostRuntime) -> Result<(), Fail> {
    let rows: [(bool, &str, &[u8], ResplitError); 5] = [
        (false, "1of1", b"\x16\x20\x00", ResplitError::NotExtendable),
        (false, "1of1", b"\x16\x20", ResplitError::NotExtendable),
        (
            true,
            "2of2",
            b"\x16\x20",
            ResplitError::BadRandomLength { needed: 14 },
        ),
        (true, "1of1", b"\x16\x20", ResplitError::SameIdentifier),
        (true, "1of1", b"\x96\x20", ResplitError::SameIdentifier),
    ];
    let mut created = Created::new();
    let plan = Plan::parse(THREE_OF_FOUR.plan)?;
    resplit(&plan, &set_of(&[LONG])?, THREE_OF_FOUR.random, &mut created)?;
    let encrypted = check_secret(ENCRYPTED)?;
    for (extendable, plan, random, error) in rows {
        let old = Params {
            id: 0x1620,
            extendable,
            exponent: 0,
        };
        let plan = Plan::parse(plan)?;
        let refused = create_from_encrypted(&plan, old, &encrypted, random, &mut created);
        equal(&rt, refused, Err(error));
        equal(&rt, created.shares().len(), 4);
    }
    Ok(())
}

#[test]
fn causes(rt: HostRuntime) {
    for (error, code, first) in [
        (ResplitError::Lack(SetLack::NoShares), 29, 0),
        (ResplitError::DigestMismatch(Mismatch::OfGroups), 51, 16),
        (ResplitError::NotExtendable, 67, 0),
        (ResplitError::BadRandomLength { needed: 14 }, 43, 14),
        (ResplitError::SameIdentifier, 68, 0),
    ] {
        let cause = error.cause();
        equal(
            &rt,
            (cause.code, cause.first, cause.second),
            (code, first, 0),
        );
    }
}

#[test]
fn examples(rt: HostRuntime) -> Result<(), Fail> {
    splits(&rt)?;
    splits_encrypted(&rt)
}

fn splits(rt: &impl Abort) -> Result<(), Fail> {
    let mut set = ShareSet::new();
    set.add(parse(
        b"enemy favorite academic acid cowboy phrase havoc level response walnut budget painting \
        inside trash adjust froth kitchen learn tidy punish",
    )?)?;
    set.add(parse(
        b"enemy favorite academic always academic sniff script carpet romp kind promise scatter \
        center unfair training emphasis evening belong fake enforce",
    )?)?;
    let plan = Plan::parse("1of1")?;
    let mut created = Created::new();
    resplit(&plan, &set, b"\x12\x34", &mut created)?;
    assert_eq!(rt; created.shares().len(), 1);
    holds(
        rt,
        print(&created.shares()[0]).starts_with(b"cleanup pecan academic academic broken "),
    );
    Ok(())
}

fn splits_encrypted(rt: &impl Abort) -> Result<(), Fail> {
    let encrypted = check_secret(
        b"\x14\xd7\x86\xbd\xb0\x0a\x6f\xef\x14\x16\x3f\x4e\xc9\x9b\xf2\x60",
    )?;
    let old = Params {
        id: 7945,
        extendable: true,
        exponent: 2,
    };
    let plan = Plan::parse("1of1")?;
    let mut created = Created::new();
    create_from_encrypted(&plan, old, &encrypted, b"\x5a\x17", &mut created)?;
    assert_eq!(rt; created.shares().len(), 1);
    holds(
        rt,
        print(&created.shares()[0]).starts_with(b"race retailer academic academic aircraft "),
    );
    Ok(())
}
