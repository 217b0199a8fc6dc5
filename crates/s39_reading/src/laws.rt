//! Facts about the definitions. Each is the contract of a function that does nothing.
ghost use Rattle.std.specs.Prelude.{◌≡◌, ℕ, List, Option, Result, Err};
ghost use Rattle.s39_kdf.specs.Limits.{IsFirstUnprintable};
ghost use Rattle.s39_kdf.specs.declared.limits.BadPassphrase.{BadPassphrase};
ghost use Rattle.s39_input.specs.Device.{Counted};
ghost use Rattle.s39_input.specs.Fault.{fault_of};
ghost use Rattle.s39_input.specs.declared.fault.Refusal.TheVariants.{Passphrase};
ghost use Rattle.s39_input.specs.Runs.{Runs, Writes};
ghost use Rattle.s39_input.specs.declared.fault.Fault.{Fault};
ghost use Rattle.s39_kdf.specs.declared.noted.NotedFingerprint.{NotedFingerprint};
ghost use Rattle.s39_kdf.specs.declared.secret_form.SecretForm.{SecretForm};
ghost use Rattle.s39_input.specs.Input.{Input};
ghost use Rattle.s39_reading.specs.Recover.{IsRecoverOutput};
ghost use Rattle.s39_set.specs.declared.status.Status.{Status};
ghost use Rattle.s39_reading.specs.Status.{IsStatusOutput};
ghost use Rattle.s39_reading.specs.Recover.{RecoversCreated};

pub use crate::encrypted::{one_decryption, one_encrypted_secret, recoveries_are_decryptions};
pub use crate::exponent::{one_exponent, shares_have_the_exponent};
pub use crate::length_laws::{statuses_are_short, statuses_of_sets_are_short};
pub use crate::round_trips::{one_output_of_a_backup, written_mnemonics_recover};
pub use crate::rounds::one_round;
use s39_backup::laws::{every_quorum_has_an_outcome, every_quorum_recovers, one_outcome};
use s39_input::laws::{
    accepted_inputs_are_share_sets, every_input_is_read, mnemonics_of_a_backup_are_a_set,
    one_checked_set, one_set,
};
use s39_set::laws::{one_first_quorum, one_lack, quorum_or_lack};
use std::io::{Read, Write};

/// This holds for all devices, even if they don't tell their bytes. `recover` refuses a passphrase only if a byte of it
/// isn't printable, and names the first such byte.
pub fn refusals_have_causes<R: Read, W: Write>()
    ensures recover { (form : SecretForm) (expected : Option NotedFingerprint) (passphrase : List ℕ)
        (reader read_to : Counted R) (writer written_to : Counted W) (bad : BadPassphrase)
        → Runs R.remaining W.contents (IsRecoverOutput form expected passphrase) reader read_to writer written_to
        (Err (fault_of (Passphrase bad)))
        → IsFirstUnprintable passphrase bad.position }
{}

/// If a run of `recover` answers without a read, its answer is right for every input. This holds for all devices.
pub fn unread_inputs_decide_nothing<R: Read, W: Write>()
    ensures recover { (form : SecretForm) (expected : Option NotedFingerprint) (passphrase : List ℕ)
        (reader read_to : Counted R) (writer written_to : Counted W) (answer : Result (Unit {0}) Fault)
        → Runs R.remaining W.contents (IsRecoverOutput form expected passphrase) reader read_to
        writer written_to answer
        → read_to.reads ≡ reader.reads → read_to.failures ≡ reader.failures → (input : Input)
        → Writes W.contents (IsRecoverOutput form expected passphrase input) writer written_to answer }
{}

/// An input has at most one output of `recover` with a passphrase: one text, and one answer.
pub fn one_recover_output()
    ensures { (form : SecretForm) (expected : Option NotedFingerprint) (passphrase : List ℕ) (input : Input)
        (text other : List ℕ) (answer another : Result (Unit {0}) Fault)
        → IsRecoverOutput form expected passphrase input text answer
        → IsRecoverOutput form expected passphrase input other another
        → (text ≡ other) × (answer ≡ another) }
{
    one_checked_set();
    one_lack();
    one_first_quorum();
    one_outcome();
}

/// Every input has an output of `recover` with a passphrase.
pub fn some_recover_output()
    ensures { (form : SecretForm) (expected : Option NotedFingerprint) (passphrase : List ℕ) (input : Input)
        → (text : List ℕ) × (answer : Result (Unit {0}) Fault)
        × IsRecoverOutput form expected passphrase input text answer }
{
    one_checked_set();
    quorum_or_lack();
    every_quorum_has_an_outcome();
}

/// For mnemonics of a created backup, an output of `recover` with the passphrase of the creation is the secret if they
/// have a quorum, and no other fingerprint is expected. Otherwise it is which of these conditions fails.
pub fn created_backups_recover()
    ensures { (form : SecretForm) (expected : Option NotedFingerprint) (passphrase : List ℕ) (input : Input)
        (text : List ℕ) (answer : Result (Unit {0}) Fault)
        → IsRecoverOutput form expected passphrase input text answer
        → RecoversCreated form expected passphrase input text answer }
{
    accepted_inputs_are_share_sets();
    one_recover_output();
    quorum_or_lack();
    every_quorum_recovers();
    mnemonics_of_a_backup_are_a_set();
}

/// An input has exactly one output of `status`: one text, and one answer.
pub fn one_status_output()
    ensures once { (input : Input) (text other : List ℕ) (answer another : Result Status Fault)
        → IsStatusOutput input text answer → IsStatusOutput input other another
        → (text ≡ other) × (answer ≡ another) }
    ensures exists { (input : Input)
        → (text : List ℕ) × (answer : Result Status Fault) × IsStatusOutput input text answer }
{
    one_set();
    every_input_is_read();
}
