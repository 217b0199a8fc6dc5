//! `create`, followed by `drill`: facts about the definitions. Each is the contract of a function that does
//! nothing.
ghost use Rattle.std.specs.Prelude.{◌≡◌, ◌⊎◌, ℕ, List, All, Contains, Result, Ok, Option, None};
ghost use Rattle.s39_words.specs.declared.ShareFields.{ShareFields};
ghost use Rattle.s39_set.specs.Names.{Names};
ghost use Rattle.s39_backup.specs.Plan.{IsPlan};
ghost use Rattle.s39_input.specs.declared.fault.Fault.{Fault};
ghost use Rattle.s39_drilling.specs.declared.drill.Done.{Done};
ghost use Rattle.s39_kdf.specs.declared.secret_form.SecretForm.{SecretForm};
ghost use Rattle.s39_input.specs.Input.{Input, whole, lines_of};
ghost use Rattle.s39_input.specs.Lines.{Holds};
ghost use Rattle.s39_input.specs.Accepted.{IsReadAs};
ghost use Rattle.s39_backup.specs.Created.{Asked};
ghost use Rattle.s39_input.specs.Create.{IsCreateOutput};
ghost use Rattle.s39_drilling.specs.Drill.{unexpected_in, IsDrillOutput, ListsSecret, ListsSecretOrCause, DrillsCreated};
ghost use Rattle.s39_input.specs.OfBackup.{HoldsMnemonicsOf};

use crate::laws::created_backups_drill;
use s39_backup::laws::whole_backups_meet_the_thresholds;
use s39_input::laws::{
    accepted_inputs_are_share_sets, one_set, written_mnemonics_are_of_the_backup,
};
use s39_set::laws::{one_lack, one_listing};
use s39_words::laws::printed_forms;

/// `create`, then `drill` with the same passphrase. For all lines that `create` writes for random bytes, `drill` lists
/// exactly the quorums, each with the secret, and answers no mismatch, unless another fingerprint is expected. For some of them, in any order and with repeats,
/// blank lines and comments, it lists the quorums after the given one, or answers why none is listed.
pub fn written_mnemonics_drill()
    ensures all_lines { (form : SecretForm) (asked : Asked) (random text : List ℕ) (limit : ℕ)
        (output : List ℕ) (answer : Result Done Fault)
        → IsPlan asked.group_threshold asked.groups → IsCreateOutput asked (whole random) text (Ok tt)
        → IsDrillOutput form asked.passphrase None limit (whole text) output answer
        → (set : List ShareFields) × IsReadAs (whole text) (Ok set)
        × ((lists : ListsSecret form set asked.secret None limit output)
        × (answer ≡ Ok (record { mismatches = unexpected_in form asked.secret lists.listed }))) }
    ensures some_lines { (form : SecretForm) (asked : Asked) (random text bytes : List ℕ)
        (after : Option Names) (limit : ℕ) (output : List ℕ) (answer : Result Done Fault)
        → IsPlan asked.group_threshold asked.groups → IsCreateOutput asked (whole random) text (Ok tt)
        → All (λ line. Holds line None ⊎ Contains (lines_of (whole text)) line) (lines_of (whole bytes))
        → IsDrillOutput form asked.passphrase after limit (whole bytes) output answer
        → (set : List ShareFields) × IsReadAs (whole bytes) (Ok set)
        × ListsSecretOrCause form set asked.secret after limit output answer }
{
    printed_forms();
    accepted_inputs_are_share_sets();
    whole_backups_meet_the_thresholds();
    written_mnemonics_are_of_the_backup();
    created_backups_drill();
}

/// What `drill` gives for mnemonics of a created backup is at most one text and one answer.
pub fn one_output_of_a_backup()
    ensures drill { (form : SecretForm) (passphrase secret : List ℕ) (after : Option Names) (limit : ℕ)
        (input : Input) (text other : List ℕ) (answer another : Result Done Fault)
        → HoldsMnemonicsOf passphrase secret input
        → DrillsCreated form passphrase after limit input text answer
        → DrillsCreated form passphrase after limit input other another
        → (text ≡ other) × (answer ≡ another) }
{
    one_set();
    one_lack();
    one_listing();
}
