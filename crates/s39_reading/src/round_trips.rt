//! `create`, followed by `recover`: facts about the definitions. Each is the contract of a function that does
//! nothing.
ghost use Rattle.std.specs.Prelude.{◌≡◌, ◌⊎◌, ℕ, List, All, Contains, Option, Result, Ok, None, false};
ghost use Rattle.s39_words.specs.declared.ShareFields.{ShareFields};
ghost use Rattle.s39_backup.specs.Plan.{IsPlan};
ghost use Rattle.s39_input.specs.declared.fault.Fault.{Fault};
ghost use Rattle.s39_kdf.specs.declared.noted.NotedFingerprint.{NotedFingerprint};
ghost use Rattle.s39_kdf.specs.declared.secret_form.SecretForm.{SecretForm};
ghost use Rattle.s39_input.specs.Input.{Input, whole, lines_of};
ghost use Rattle.s39_input.specs.Lines.{Holds};
ghost use Rattle.s39_input.specs.Accepted.{IsReadAs};
ghost use Rattle.s39_backup.specs.Created.{Asked};
ghost use Rattle.s39_input.specs.Create.{IsCreateOutput};
ghost use Rattle.s39_reading.specs.Recover.{is_other_than, secret_line, IsRecoverOutput};
ghost use Rattle.s39_input.specs.OfBackup.{HoldsMnemonicsOf};
ghost use Rattle.s39_reading.specs.Recover.{IsSecretOrCause, RecoversCreated};

use crate::laws::{created_backups_recover, some_recover_output};
use s39_backup::laws::whole_backups_meet_the_thresholds;
use s39_input::laws::{
    accepted_inputs_are_share_sets, one_set, written_mnemonics_are_of_the_backup,
};
use s39_set::laws::{one_lack, one_listing};
use s39_words::laws::printed_forms;

/// `create`, then `recover` with the same passphrase. For all lines that `create` writes for random bytes, `recover`
/// gives the secret, unless another fingerprint is expected. For some of them, in any order and with repeats, blank lines
/// and comments, it gives the secret if they have a quorum, and no other fingerprint is expected, and otherwise which of
/// these conditions fails.
pub fn written_mnemonics_recover()
    ensures all_lines { (form : SecretForm) (expected : Option NotedFingerprint) (asked : Asked)
        (random text : List ℕ)
        → IsPlan asked.group_threshold asked.groups → IsCreateOutput asked (whole random) text (Ok tt)
        → is_other_than expected asked.secret ≡ false
        → IsRecoverOutput form expected asked.passphrase (whole text) (secret_line form asked.secret) (Ok tt) }
    ensures some_lines { (form : SecretForm) (expected : Option NotedFingerprint) (asked : Asked)
        (random text bytes output : List ℕ) (answer : Result (Unit {0}) Fault)
        → IsPlan asked.group_threshold asked.groups → IsCreateOutput asked (whole random) text (Ok tt)
        → All (λ line. Holds line None ⊎ Contains (lines_of (whole text)) line) (lines_of (whole bytes))
        → IsRecoverOutput form expected asked.passphrase (whole bytes) output answer
        → (set : List ShareFields) × IsReadAs (whole bytes) (Ok set)
        × IsSecretOrCause form expected set asked.secret output answer }
{
    printed_forms();
    accepted_inputs_are_share_sets();
    whole_backups_meet_the_thresholds();
    some_recover_output();
    written_mnemonics_are_of_the_backup();
    created_backups_recover();
}

/// What `recover` gives for mnemonics of a created backup is at most one text and one answer.
pub fn one_output_of_a_backup()
    ensures recover { (form : SecretForm) (expected : Option NotedFingerprint) (passphrase secret : List ℕ)
        (input : Input) (text other : List ℕ) (answer another : Result (Unit {0}) Fault) → HoldsMnemonicsOf passphrase secret input
        → RecoversCreated form expected passphrase input text answer
        → RecoversCreated form expected passphrase input other another
        → (text ≡ other) × (answer ≡ another) }
{
    one_set();
    one_lack();
    one_listing();
}
