//! Tests of `run_resplit`, `resplit_lines` and `lines_from_encrypted`. A plain reading of the standard in Python computed the mnemonics.
use crate::expect::{equal, holds};
use s39_backup::Plan;
use s39_creating::{lines_from_encrypted, resplit_lines, run_resplit};
use s39_input::{Counting, NoOutput};
use s39_kdf::Params;
use s39_reading::encrypted_in;
use std::test::Fail;

/// Two mnemonics of an extendable backup by the plan `2of3`, with the exponent 1, and a comment.
const OLD: &[u8] = b"# two of three\n\
yield kidney academic acid adequate building install skunk overall screw wine \
losing sled devote dictate weapon glen favorite blimp maiden\n\
yield kidney academic agency civil memory daughter tendency duke pulse elbow \
that ranked yield software buyer omit elbow category loan\n";

const PLAN: &str = "2/2of3,1of1,1of1";

const RANDOM: &[u8] =
    b"\xf9\x91\xeb\x6a\x95\xa2\x97\x36\x33\xca\x60\x6a\x23\x8a\xd0\xec\xae\xb3\x40\x69\xd2\xe9\xa2\x87\xf0\x4e";

/// The mnemonics of the new backup of their secret.
const NEW: &[u8] =
    b"venture marathon acrobat leaf dragon evening beaver ting bike prevent receiver fatigue teacher network cage mother galaxy galaxy tenant cultural\n\
venture marathon acrobat lily dress snapshot moment thank privacy home yoga cinema emphasis reaction criminal visual august increase devote playoff\n\
venture marathon acrobat lungs detailed grin burning ugly cylinder deal coding purple unfair scared industry tendency wolf email climate provide\n\
venture marathon beard leader crunch helpful blessing cargo friendly valid maiden bulb priority pile adequate dream sack clay toxic scatter\n\
venture marathon ceramic leader behavior unusual round blue decision execute upstairs rich prize already scatter unhappy emphasis deadline taught scout\n";

/// A mnemonic of an extendable backup with the identifier 0x1620.
const SHORT: &[u8] =
    b"crush again academic academic device visitor diminish clogs chemical prospect \
expect python adequate clogs enlarge extend flexible aircraft smoking staff\n";

/// The mnemonic of a backup that isn't extendable.
const FIXED: &[u8] =
    b"have lunch academic academic check ancestor scroll scroll metric trial ivory \
shaped luxury cage painting injury bulge timber bishop threaten\n";

/// It with two words exchanged.
const EXCHANGED: &[u8] =
    b"have lunch academic academic check ancestor scroll scroll metric trial ivory \
shaped luxury cage painting injury bulge timber threaten bishop\n";

/// Two mnemonics of an extendable backup by the plan `2of3`, of which the first has another sixth byte of its value.
const MISMATCHED: &[u8] =
    b"yield kidney academic acid adequate building install skunk owner screw wine \
losing sled devote dictate weapon glen toxic pecan cluster\n\
yield kidney academic agency civil memory daughter tendency duke pulse elbow \
that ranked yield software buyer omit elbow category loan\n";

/// One mnemonic of that backup.
const ONE_OF_TWO: &[u8] =
    b"yield kidney academic agency civil memory daughter tendency duke pulse elbow \
that ranked yield software buyer omit elbow category loan\n";

#[test]
fn new_mnemonics(rt: HostRuntime) -> Result<(), Fail> {
    let plan = Plan::parse(PLAN)?;
    let mut text = Vec::new(rt.alloc());
    let mut input = Counting::new(OLD);
    run_resplit(&plan, RANDOM, &mut input, &mut Counting::new(&mut text))?;
    equal(&rt, text.as_slice(), NEW);

    let mut text = [0; 800];
    let put = resplit_lines(&plan, OLD, RANDOM, &mut text)?;
    equal(&rt, (put.written, put.lines), (NEW.len(), 5));
    holds(&rt, text.starts_with(NEW));

    let mut text = [7; 100];
    match resplit_lines(&plan, OLD, RANDOM, &mut text) {
        Err(NoOutput::TooShort(short)) => {
            equal(&rt, short.needed, NEW.len());
        }
        _ => holds(&rt, false),
    }
    equal(&rt, text, [7; 100]);
    Ok(())
}

// If two causes apply, the earlier is told: each row but those of 43 and 68 has a wrong number of random bytes.
#[test]
fn refused_in_order(rt: HostRuntime) -> Result<(), Fail> {
    let rows: [(&[u8], &[u8], u8, u64, Option<u64>); 8] = [
        (EXCHANGED, b"", 13, 0, Some(1)),
        (b"# no mnemonic\n", b"", 29, 0, None),
        (ONE_OF_TWO, b"", 30, 0, None),
        (MISMATCHED, b"", 51, 0, None),
        (FIXED, b"", 67, 0, None),
        (SHORT, b"\x16\x20\x00", 43, 2, None),
        (SHORT, b"\x16", 43, 2, None),
        (SHORT, b"\x96\x20", 68, 0, None),
    ];
    let plan = Plan::parse("1of1")?;
    for (lines, random, code, first, line) in rows {
        let mut text = Vec::new(rt.alloc());
        let mut input = Counting::new(lines);
        let run = run_resplit(&plan, random, &mut input, &mut Counting::new(&mut text));
        holds(&rt, text.is_empty());
        match run {
            Ok(()) => holds(&rt, false),
            Err(fault) => {
                let cause = fault.refusal.cause();
                equal(
                    &rt,
                    (cause.code, cause.first, fault.line),
                    (code, first, line),
                );
            }
        }
        let mut text = [7; 20];
        match resplit_lines(&plan, lines, random, &mut text) {
            Err(NoOutput::Refused(fault)) => {
                let cause = fault.refusal.cause();
                equal(
                    &rt,
                    (cause.code, cause.first, fault.line),
                    (code, first, line),
                );
            }
            _ => holds(&rt, false),
        }
        equal(&rt, text, [7; 20]);
    }
    Ok(())
}

// In two steps, the new mnemonics are the same.
#[test]
fn new_mnemonics_in_two_steps(rt: HostRuntime) -> Result<(), Fail> {
    let plan = Plan::parse(PLAN)?;
    let encrypted = encrypted_in(OLD)?;
    let (params, bytes) = (encrypted.params, encrypted.bytes.as_slice());
    let mut text = [0; 800];
    let put = lines_from_encrypted(&plan, params, bytes, RANDOM, &mut text)?;
    equal(&rt, (put.written, put.lines), (NEW.len(), 5));
    holds(&rt, text.starts_with(NEW));

    let mut text = [7; 100];
    match lines_from_encrypted(&plan, params, bytes, RANDOM, &mut text) {
        Err(NoOutput::TooShort(short)) => {
            equal(&rt, short.needed, NEW.len());
        }
        _ => holds(&rt, false),
    }
    equal(&rt, text, [7; 100]);
    Ok(())
}

// The number of bytes is judged first, whatever the flag and the random bytes are.
#[test]
fn encrypted_refused_in_order(rt: HostRuntime) -> Result<(), Fail> {
    let rows: [(bool, &[u8], &[u8], u8, u64); 5] = [
        (false, &[9; 17], b"", 42, 17),
        (true, &[9; 14], b"\x16\x20", 42, 14),
        (false, &[9; 16], b"", 67, 0),
        (true, &[9; 16], b"\x16\x20\x00", 43, 2),
        (true, &[9; 16], b"\x96\x20", 68, 0),
    ];
    let plan = Plan::parse("1of1")?;
    for (extendable, encrypted, random, code, first) in rows {
        let params = Params {
            id: 0x1620,
            extendable,
            exponent: 0,
        };
        let mut text = [7; 20];
        match lines_from_encrypted(&plan, params, encrypted, random, &mut text) {
            Err(NoOutput::Refused(fault)) => {
                let cause = fault.refusal.cause();
                equal(
                    &rt,
                    (cause.code, cause.first, fault.line),
                    (code, first, None),
                );
            }
            _ => holds(&rt, false),
        }
        equal(&rt, text, [7; 20]);
    }
    Ok(())
}
