//! The calls that create a backup.
ghost use Rattle.s39_c.specs.Creating.{AreOptions, GivesMnemonics, GivesBackup, GivesNumber};

use crate::answer::ShamirAnswer;
use crate::clearing::CREATE;
use s39_backup::{Options, Plan};
use s39_clearing::clear_stack;
use s39_creating::create_lines;
use s39_input::Fault;
use s39_kdf::{MAX_EXPONENT, check_secret_length};

/// Gives the number of random bytes that a backup takes, in `first` of the answer. `plan` is the text of the plan, and
/// `secret_bytes` is the length of the master secret, in bytes.
///
/// The call refuses with the first of these that applies: 31 to 34 (the plan), 42 (the length).
///
/// ```c
/// shamir_answer answer = shamir_random_needed("2of3", 4, 16);
/// // answer.code is SHAMIR_DONE, and answer.first is 14
/// ```
#[unsafe(no_mangle)]
pub extern "C" fn shamir_random_needed(plan: &[u8], secret_bytes: usize) -> ShamirAnswer
    ensures { GivesNumber plan.now secret_bytes result }
{
    match Plan::parse_bytes(plan) {
        Ok(plan) => match check_secret_length(secret_bytes) {
            Ok(()) => ShamirAnswer::number(plan.random_needed(secret_bytes)),
            Err(bad) => ShamirAnswer::from(Fault::from(bad)),
        },
        Err(error) => ShamirAnswer::from(error),
    }
}

/// Creates a backup of a master secret. The mnemonics go to the start of `mnemonics`, in the order of groups and
/// members, and a line feed follows each. `written` is their length in bytes, and `first` is their number. The bytes
/// after them are unchanged.
///
/// `plan` is the text of the plan. `passphrase` may be empty. `exponent` is the iteration exponent, 0 to 15, and
/// `extendable` is the extendable flag, 0 or 1. `random` has exactly as many bytes as `shamir_random_needed` says.
///
/// The call refuses with the first of these that applies, and `mnemonics` is then unchanged: 2 (the exponent or the
/// flag), 31 to 34 (the plan), 41 (the passphrase), 42 (the secret), 43 (the random bytes), 1 (`mnemonics` is too short,
/// which the call notices only after the iterations).
///
/// ```c
/// static char mnemonics[SHAMIR_MNEMONICS_BYTES_MAX];
/// shamir_answer answer = shamir_create("2of3", 4, secret, 16, "", 0, 0, 1, random, 14, mnemonics, sizeof mnemonics);
/// ```
#[unsafe(no_mangle)]
pub extern "C" fn shamir_create(
    plan: &[u8],
    secret: &[u8],
    passphrase: &[u8],
    exponent: u32,
    extendable: u32,
    random: &[u8],
    mnemonics: &mut [u8],
) -> ShamirAnswer
    ensures { GivesBackup (record {
      plan = plan.now;
      secret = secret.now;
      passphrase = passphrase.now;
      exponent = exponent;
      extendable = extendable;
    }) random.now mnemonics.old mnemonics.new result }
{
    let answer = create_answer(
        plan, secret, passphrase, exponent, extendable, random, mnemonics,
    );
    let _ = clear_stack::<CREATE>();
    answer
}

/// The answer of `shamir_create`.
#[inline(never)]
fn create_answer(
    plan: &[u8],
    secret: &[u8],
    passphrase: &[u8],
    exponent: u32,
    extendable: u32,
    random: &[u8],
    mnemonics: &mut [u8],
) -> ShamirAnswer
    ensures { GivesBackup (record {
      plan = plan.now;
      secret = secret.now;
      passphrase = passphrase.now;
      exponent = exponent;
      extendable = extendable;
    }) random.now mnemonics.old mnemonics.new result }
{
    let Ok(options) = options_of(exponent, extendable) else {
        return ShamirAnswer::out_of_range();
    };
    match Plan::parse_bytes(plan) {
        Ok(plan) => create_by(&plan, secret, passphrase, options, random, mnemonics),
        Err(error) => ShamirAnswer::from(error),
    }
}

/// The options with this exponent and this extendable flag, unless the exponent is above 15 or the flag above 1.
fn options_of(exponent: u32, extendable: u32) -> Result<Options, ()>
    ensures { AreOptions exponent extendable result }
{
    if u32::from(MAX_EXPONENT) < exponent || 1 < extendable {
        return Err(());
    }
    Ok(Options {
        exponent: exponent as u8,
        extendable: extendable == 1,
    })
}

/// Creates a backup by this plan.
fn create_by(
    plan: &Plan,
    secret: &[u8],
    passphrase: &[u8],
    options: Options,
    random: &[u8],
    mnemonics: &mut [u8],
) -> ShamirAnswer
    ensures { GivesMnemonics (record {
      secret = secret.now;
      passphrase = passphrase.now;
      group_threshold = plan.now.group_threshold;
      groups = plan.now.groups.items;
      options = options;
    }) random.now mnemonics.old mnemonics.new result }
{
    match create_lines(plan, secret, passphrase, options, random, mnemonics) {
        Ok(put) => ShamirAnswer::created(put),
        Err(cause) => ShamirAnswer::from(cause),
    }
}
