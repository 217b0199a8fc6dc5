//! The call that creates a backup of an encrypted secret.
ghost use Rattle.std.specs.Prelude.{length};
ghost use Rattle.s39_creating.specs.Resplit.{IsOutputFromEncrypted};
ghost use Rattle.s39_input.specs.Input.{lines_in};
ghost use Rattle.s39_c.specs.Answers.{GivesOutputAs, created};
ghost use Rattle.s39_c.specs.Resplitting.{GivesFromEncrypted, GivesSplit};

use crate::answer::ShamirAnswer;
use crate::clearing::CREATE_FROM_ENCRYPTED;
use crate::decrypting::params_of;
use crate::encrypted::ShamirParameters;
use s39_backup::Plan;
use s39_clearing::clear_stack;
use s39_creating::lines_from_encrypted;
use s39_kdf::Params;

/// Creates a backup of the encrypted secret of an extendable backup, by a plan, and gives its mnemonics. `plan` is the text of the
/// plan. `parameters` and `encrypted` are what `shamir_encrypted` gave. The mnemonics go to the start of `mnemonics`, in the order
/// of groups and members, and a line feed follows each. `written` is their length in bytes, and `first` is their number. The bytes
/// after them are unchanged.
///
/// The call takes no passphrase and derives no key. The new backup has the flag and the exponent of `parameters`, and gives with
/// each passphrase the secret that `shamir_decrypt` gives. `shamir_encrypted`, and then this call, give what `shamir_resplit` gives.
/// `random` has as many bytes as `shamir_random_needed` says for `encrypted_bytes`. The first two give the new identifier.
///
/// The call refuses with the first of these that applies, and `mnemonics` is then unchanged:
///
/// - 2, if a number of the parameters is out of its range;
/// - 31 to 34 (the plan), 42, if `encrypted` has a length that no secret has;
/// - 67 (the backup isn't extendable), 43 (the random bytes), with the number needed;
/// - 68 (they give the identifier of `parameters`);
/// - 1, if `mnemonics` is too short.
///
/// ```c
/// shamir_answer answer = shamir_create_from_encrypted(
///     "3of5", 4, &parameters, encrypted, encrypted_bytes, random, random_bytes, mnemonics, sizeof mnemonics);
/// ```
#[unsafe(no_mangle)]
pub extern "C" fn shamir_create_from_encrypted(
    plan: &[u8],
    parameters: &ShamirParameters,
    encrypted: &[u8],
    random: &[u8],
    mnemonics: &mut [u8],
) -> ShamirAnswer
    ensures { GivesFromEncrypted parameters.now encrypted.now random.now plan.now mnemonics.old
        mnemonics.new result }
{
    let answer = from_encrypted_answer(plan, parameters, encrypted, random, mnemonics);
    let _ = clear_stack::<CREATE_FROM_ENCRYPTED>();
    answer
}

/// The answer of `shamir_create_from_encrypted`.
#[inline(never)]
fn from_encrypted_answer(
    plan: &[u8],
    parameters: &ShamirParameters,
    encrypted: &[u8],
    random: &[u8],
    mnemonics: &mut [u8],
) -> ShamirAnswer
    ensures { GivesFromEncrypted parameters.now encrypted.now random.now plan.now mnemonics.old
        mnemonics.new result }
{
    match params_of(parameters) {
        Ok(params) => with_params(plan, params, encrypted, random, mnemonics),
        Err(()) => ShamirAnswer::out_of_range(),
    }
}

/// Creates a backup of an encrypted secret with these parameters.
fn with_params(
    plan: &[u8],
    params: Params,
    encrypted: &[u8],
    random: &[u8],
    mnemonics: &mut [u8],
) -> ShamirAnswer
    ensures { GivesSplit
        (λ threshold groups. IsOutputFromEncrypted threshold groups random.now (params, encrypted.now))
        plan.now mnemonics.old mnemonics.new result }
{
    match Plan::parse_bytes(plan) {
        Ok(plan) => by_plan(&plan, params, encrypted, random, mnemonics),
        Err(error) => ShamirAnswer::from(error),
    }
}

/// Creates a backup of an encrypted secret by this plan.
fn by_plan(
    plan: &Plan,
    params: Params,
    encrypted: &[u8],
    random: &[u8],
    mnemonics: &mut [u8],
) -> ShamirAnswer
    ensures { GivesOutputAs (λ text. created (length text) (lines_in text))
        (IsOutputFromEncrypted plan.now.group_threshold plan.now.groups.items random.now (params, encrypted.now))
        mnemonics.old mnemonics.new result }
{
    match lines_from_encrypted(plan, params, encrypted, random, mnemonics) {
        Ok(put) => ShamirAnswer::created(put),
        Err(cause) => ShamirAnswer::from(cause),
    }
}
