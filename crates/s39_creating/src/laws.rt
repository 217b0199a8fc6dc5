//! Facts about the definitions. Each is the contract of a function that does nothing.
ghost use Rattle.std.specs.Prelude.{◌≡◌, ℕ, List, Result, Err, length};
ghost use Rattle.s39_kdf.specs.Limits.{IsFirstUnprintable, IsSecretLength};
ghost use Rattle.s39_kdf.specs.declared.limits.BadPassphrase.{BadPassphrase};
ghost use Rattle.s39_kdf.specs.declared.limits.BadSecretLength.{BadSecretLength};
ghost use Rattle.s39_input.specs.Device.{Counted};
ghost use Rattle.s39_input.specs.Fault.{fault_of};
ghost use Rattle.s39_input.specs.declared.fault.Refusal.TheVariants.{Passphrase, SecretLength, NotInPlan};
ghost use Rattle.s39_input.specs.Runs.{Runs, Writes};
ghost use Rattle.s39_input.specs.declared.fault.Fault.{Fault};
ghost use Rattle.s39_creating.specs.declared.creating.TheConstants.{MAX_BACKUP_RANDOM_BYTES};
ghost use Rattle.s39_input.specs.Input.{Input};
ghost use Rattle.s39_kdf.specs.Bytes.{AreBytes};
ghost use Rattle.s39_words.specs.declared.ShareFields.{ShareFields};
ghost use Rattle.s39_set.specs.Names.{Names};
ghost use Rattle.s39_backup.specs.Plan.{IsPlan};
ghost use Rattle.s39_backup.specs.declared.plan.Members.{Members};
ghost use Rattle.s39_backup.specs.Created.{Asked, most_random};
ghost use Rattle.s39_input.specs.Create.{IsCreateOutput};
ghost use Rattle.s39_creating.specs.Reissue.{IsFirstOther, IsReissueOutput, TestPlans};
ghost use Rattle.s39_input.specs.declared.slices.NoOutput.{NoOutput};
ghost use Rattle.s39_input.specs.declared.slices.WrittenLines.{WrittenLines};
ghost use Rattle.s39_input.specs.Slices.{Puts};

pub use crate::length_laws::{backups_are_short, each_mnemonic_is_a_line, reissues_are_short};
pub use crate::reissue_laws::{created_backups_reissue, one_reissue_output};
pub use crate::resplit_laws::{
    backups_from_encrypted_are_short, created_backups_are_split_anew,
    encrypted_secrets_give_what_create_writes, one_output_from_encrypted, one_resplit_output,
    only_these_hinder_a_split, resplit_writes_what_create_writes, resplits_are_short,
};
pub use crate::round_trips::{
    every_backup_is_written, one_output_of_a_backup, written_mnemonics_reissue,
};
use s39_backup::laws::{created_shares_are_shares, one_creation};
use s39_kdf::laws::passphrases_are_printable_or_not;
use s39_words::laws::{every_share_has_a_printed_form, one_printed_form};
use std::io::{Read, Write};

/// The limit of the code is that of the definitions.
pub fn numbers()
    ensures random { MAX_BACKUP_RANDOM_BYTES ≡ most_random }
{}

/// This holds for all devices, even if they don't tell their bytes. `create` refuses a passphrase only if a byte of it
/// isn't printable, and names the first such byte. It refuses the length of a secret only if no secret can have it.
/// `reissue` answers `NotInPlan` only for the first name that the plan doesn't have.
pub fn refusals_have_causes<R: Read, W: Write>()
    ensures create { (asked : Asked) (reader read_to : Counted R) (writer written_to : Counted W)
        (bad : BadPassphrase)
        → Runs R.remaining W.contents (IsCreateOutput asked) reader read_to writer written_to
        (Err (fault_of (Passphrase bad)))
        → IsFirstUnprintable asked.passphrase bad.position }
    ensures name { (group_threshold : ℕ) (groups : List Members) (names : Names)
        (reader read_to : Counted R) (writer written_to : Counted W) (group member : ℕ)
        → Runs R.remaining W.contents (IsReissueOutput group_threshold groups names) reader read_to
        writer written_to (Err (fault_of (NotInPlan group member)))
        → IsFirstOther groups names (group, member) }
    ensures secret { (asked : Asked) (reader read_to : Counted R) (writer written_to : Counted W)
        (bad : BadSecretLength)
        → Runs R.remaining W.contents (IsCreateOutput asked) reader read_to writer written_to
        (Err (fault_of (SecretLength bad)))
        → ¬ IsSecretLength (length asked.secret) }
{}

/// `reissue` tests names and shares for what the definitions of a plan say.
pub fn plans_are_tested()
    ensures { (group_threshold : ℕ) (groups : List Members) (names : Names) (set : List ShareFields)
        → TestPlans group_threshold groups names set }
{}

/// If a run answers without a read, its answer is right for every input. This holds for all devices.
pub fn unread_inputs_decide_nothing<R: Read, W: Write>()
    ensures reissue { (group_threshold : ℕ) (groups : List Members) (names : Names)
        (reader read_to : Counted R) (writer written_to : Counted W)
        (answer : Result (Unit {0}) Fault)
        → Runs R.remaining W.contents (IsReissueOutput group_threshold groups names) reader read_to
        writer written_to answer
        → read_to.reads ≡ reader.reads → read_to.failures ≡ reader.failures → (input : Input)
        → Writes W.contents (IsReissueOutput group_threshold groups names input)
        writer written_to answer }
    ensures create { (asked : Asked) (reader read_to : Counted R) (writer written_to : Counted W)
        (answer : Result (Unit {0}) Fault)
        → Runs R.remaining W.contents (IsCreateOutput asked) reader read_to writer written_to answer
        → read_to.reads ≡ reader.reads → read_to.failures ≡ reader.failures → (input : Input)
        → Writes W.contents (IsCreateOutput asked input) writer written_to answer }
{}

/// An input has at most one output of `create` for a request: one text, and one answer. It has one for every plan, and
/// for every secret and every input that consist of bytes.
pub fn one_create_output()
    ensures once { (asked : Asked) (input : Input) (text other : List ℕ)
        (answer another : Result (Unit {0}) Fault)
        → IsCreateOutput asked input text answer
        → IsCreateOutput asked input other another
        → (text ≡ other) × (answer ≡ another) }
    ensures exists { (asked : Asked) (input : Input)
        → IsPlan asked.group_threshold asked.groups → AreBytes asked.secret → AreBytes input.bytes
        → (text : List ℕ) × (answer : Result (Unit {0}) Fault)
        × IsCreateOutput asked input text answer }
{
    passphrases_are_printable_or_not();
    one_creation();
    created_shares_are_shares();
    one_printed_form();
    every_share_has_a_printed_form();
}

/// Putting what `create` writes into a slice has at most one result: one slice, and one answer.
pub fn one_text_in_a_slice()
    ensures { (asked : Asked) (input : Input) (old new other : List ℕ)
        (answer another : Result WrittenLines NoOutput)
        → Puts (IsCreateOutput asked input) old new answer
        → Puts (IsCreateOutput asked input) old other another
        → (new ≡ other) × (answer ≡ another) }
{
    one_create_output();
}
