//! The commands of the worked examples, run over any devices.

ghost use Rattle.std.specs.Prelude.{◌<◌};

use s39_backup::{Options, Plan};
use s39_creating::run_create;
use s39_drilling::{Done, run_drill};
use s39_fixtures::{
    FIVE, ONE_OF_ONE, ONE_OF_ONE_SECRET, ONE_OF_ONE_TWO_WORDS_LOST, RANDOM, SHOWN, drilled, lines,
};
use s39_input::{Counting, Fault, Refusal, SecretForm, run_repair, run_show};
use s39_kdf::check_secret;
use s39_reading::run_recover;
use s39_refusal::Cause;
use std::alloc::{AllocError, Global};
use std::io::{Read, Write};

/// The line and the cause of a fault.
pub type Told = (Option<u64>, Cause);

pub const READ_FAILED: Told = (
    None,
    Cause {
        code: 72,
        first: 0,
        second: 0,
    },
);

pub const WRITE_FAILED: Told = (
    None,
    Cause {
        code: 73,
        first: 0,
        second: 0,
    },
);

/// A command of the worked examples.
#[derive(Clone, Copy, Debug)]
pub enum Command {
    Show,
    /// The backup of five mnemonics.
    Create,
    /// The backup of one mnemonic.
    CreateOne,
    Recover,
    Drill,
    Repair,
}

/// What a command answers (how many mismatches a drill has, 1 if two mnemonics fit a line, and otherwise 0), how many calls of the
/// reader and of the writer failed, and the devices.
#[derive(Drop)]
pub struct Outcome<R, W> {
    pub answer: Result<u32, Told>,
    pub failures: (u64, u64),
    pub input: R,
    pub output: W,
}

/// Creates a backup by a plan, with the passphrase `TREZOR`.
fn create_by<R: Read, W: Write>(
    plan: &str,
    input: &mut Counting<R>,
    output: &mut Counting<W>,
) -> Result<(), Fault>
    requires readable { input.old.failures < u64.MAX }
    requires writable { output.old.failures < u64.MAX }
{
    let (Ok(plan), Ok(secret)) = (
        Plan::parse(plan),
        check_secret(b"\xbb\x54\xaa\xc4\xb8\x9d\xc8\x68\xba\x37\xd9\xcc\x21\xb2\xce\xce"),
    ) else {
        return Err(Fault::from(Refusal::NotAQuorum));
    };
    let options = Options {
        exponent: 0,
        extendable: false,
    };
    run_create(&plan, &secret, b"TREZOR", options, input, output)
}

pub fn told(fault: Fault) -> Told {
    (fault.line, fault.refusal.cause())
}

pub fn outcome_of<R: Read + Drop, W: Write + Drop>(
    command: Command,
    input: R,
    output: W,
) -> Outcome<R, W> {
    let mut input = Counting::new(input);
    let mut output = Counting::new(output);
    let answer = match command {
        Command::Show => run_show(&mut input, &mut output).map(|()| 0),
        Command::Create => create_by("2/2of3,1of1,1of1", &mut input, &mut output).map(|()| 0),
        Command::CreateOne => create_by("1of1", &mut input, &mut output).map(|()| 0),
        Command::Recover => run_recover(
            SecretForm::Digits,
            None,
            b"TREZOR",
            &mut input,
            &mut output,
            &mut (),
        )
        .map(|()| 0),
        Command::Drill => run_drill(
            SecretForm::Digits,
            b"TREZOR",
            None,
            1000,
            &mut input,
            &mut output,
            &mut (),
        )
        .map(|Done { mismatches }| mismatches),
        Command::Repair => run_repair(&mut input, &mut output).map(|is_one| u32::from(!is_one)),
    };
    Outcome {
        answer: answer.map_err(told),
        failures: (input.failures(), output.failures()),
        input: input.into_inner(),
        output: output.into_inner(),
    }
}

/// The input of a command, and what it writes.
#[derive(Drop)]
pub struct Example {
    pub command: Command,
    pub input: Vec<u8>,
    pub output: String,
}

pub fn example_of(alloc: Global, command: Command) -> Result<Example, AllocError> {
    let (input, output) = match command {
        Command::Show => (
            Vec::from_slice(alloc, ONE_OF_ONE.as_bytes())?,
            String::from_str(alloc, SHOWN)?,
        ),
        Command::Create => (Vec::from_slice(alloc, &RANDOM)?, lines(alloc, &FIVE)?),
        Command::CreateOne => (
            Vec::from_slice(alloc, b"\x1f\x09")?,
            lines(alloc, &[ONE_OF_ONE])?,
        ),
        Command::Recover => (
            Vec::from_slice(alloc, ONE_OF_ONE.as_bytes())?,
            String::from_str(alloc, ONE_OF_ONE_SECRET)?,
        ),
        Command::Drill => (lines(alloc, &FIVE)?.into_bytes(), drilled(alloc)?),
        Command::Repair => (
            Vec::from_slice(alloc, ONE_OF_ONE_TWO_WORDS_LOST.as_bytes())?,
            lines(alloc, &[ONE_OF_ONE])?,
        ),
    };
    Ok(Example {
        command,
        input,
        output,
    })
}

pub const COMMANDS: [Command; 6] = [
    Command::Show,
    Command::Create,
    Command::CreateOne,
    Command::Recover,
    Command::Drill,
    Command::Repair,
];
