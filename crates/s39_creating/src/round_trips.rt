//! `create`, and `create` followed by `reissue`: facts about the definitions. Each is the contract of a function that
//! does nothing.
ghost use Rattle.std.specs.Prelude.{◌≡◌, ◌⊎◌, ℕ, List, All, Contains, Result, Ok, length, None};
ghost use Rattle.s39_kdf.specs.Bytes.{AreBytes};
ghost use Rattle.s39_kdf.specs.Limits.{IsPrintable, IsSecretLength};
ghost use Rattle.s39_words.specs.declared.ShareFields.{ShareFields};
ghost use Rattle.s39_set.specs.Names.{Names};
ghost use Rattle.s39_backup.specs.Plan.{IsPlan};
ghost use Rattle.s39_input.specs.declared.fault.Fault.{Fault};
ghost use Rattle.s39_input.specs.Input.{Input, whole, lines_of};
ghost use Rattle.s39_input.specs.Lines.{Holds};
ghost use Rattle.s39_input.specs.Accepted.{IsReadAs};
ghost use Rattle.s39_backup.specs.declared.plan.Members.{Members};
ghost use Rattle.s39_backup.specs.Created.{Asked, IsCreation, needed_by};
ghost use Rattle.s39_backup.specs.LargerPlan.{HaveMoreMembers};
ghost use Rattle.s39_backup.specs.Plan.{IsNameOfPlan};
ghost use Rattle.s39_input.specs.Create.{ArePrintedLines, IsCreateOutput};
ghost use Rattle.s39_creating.specs.Reissue.{IsReissueOutput, WritesThoseOrCause, ReissuesCreated};
ghost use Rattle.s39_input.specs.OfBackup.{HoldsMnemonicsOf};

use crate::laws::created_backups_reissue;
use s39_backup::laws::{
    created_shares_are_shares, every_backup_can_be_created, larger_plans_keep_the_shares,
    shares_of_a_backup_agree,
};
use s39_input::laws::one_set;
use s39_set::laws::shares_that_agree_join;
use s39_words::laws::{every_share_has_a_printed_form, one_printed_form, printed_forms};

/// `create` writes a text for each plan, printable passphrase, secret of an accepted length and options, with exactly
/// as many random bytes as they take.
pub fn every_backup_is_written()
    ensures { (asked : Asked) (random : List ℕ)
        → IsPlan asked.group_threshold asked.groups → All IsPrintable asked.passphrase
        → IsSecretLength (length asked.secret) → AreBytes asked.secret → AreBytes random
        → length random ≡ needed_by asked
        → (text : List ℕ) × IsCreateOutput asked (whole random) text (Ok tt) }
{
    every_backup_can_be_created();
    created_shares_are_shares();
    every_share_has_a_printed_form();
}

/// `create`, then `reissue`. For some lines that `create` writes for random bytes, in any order and with repeats, blank
/// lines and comments, `reissue` with the same plan gives the mnemonics of that backup with the requested names, word
/// for word. Otherwise it says how many members and groups are at hand and needed for the first name that isn't
/// determined, or that there are no shares.
///
/// With a plan that has more members in some groups, it gives mnemonics of the backup that `create` makes by that plan
/// and the same random bytes. An input of lines that `create` wrote and of lines that `reissue` gave, in any order and
/// with repeats, blank lines and comments, holds mnemonics of one backup of this secret and passphrase. So every
/// quorum of them recovers the secret.
pub fn written_mnemonics_reissue()
    ensures same_plan { (asked : Asked) (random text bytes : List ℕ) (names : Names)
        (output : List ℕ) (answer : Result (Unit {0}) Fault)
        → IsPlan asked.group_threshold asked.groups → IsCreateOutput asked (whole random) text (Ok tt)
        → All (λ line. Holds line None ⊎ Contains (lines_of (whole text)) line) (lines_of (whole bytes))
        → All (IsNameOfPlan asked.groups) names
        → IsReissueOutput asked.group_threshold asked.groups names (whole bytes) output answer
        → (shares : List ShareFields) × IsCreation asked random (Ok shares) × ArePrintedLines shares text
        × ((set : List ShareFields) × IsReadAs (whole bytes) (Ok set)
        × WritesThoseOrCause set asked.group_threshold asked.groups shares names output answer) }
    ensures larger_plan { (asked : Asked) (larger : List Members) (random text bytes : List ℕ)
        (names : Names) (output : List ℕ) (answer : Result (Unit {0}) Fault)
        → IsPlan asked.group_threshold asked.groups → IsPlan asked.group_threshold larger
        → HaveMoreMembers asked.groups larger → AreBytes asked.secret → AreBytes random
        → IsCreateOutput asked (whole random) text (Ok tt)
        → All (λ line. Holds line None ⊎ Contains (lines_of (whole text)) line) (lines_of (whole bytes))
        → All (IsNameOfPlan larger) names
        → IsReissueOutput asked.group_threshold larger names (whole bytes) output answer
        → (others : List ShareFields) × IsCreation (record asked { groups = larger }) random (Ok others)
        × ((set : List ShareFields) × IsReadAs (whole bytes) (Ok set)
        × WritesThoseOrCause set asked.group_threshold larger others names output answer) }
    ensures joined { (asked : Asked) (larger : List Members) (random text bytes : List ℕ)
        (names : Names) (output more : List ℕ)
        → IsPlan asked.group_threshold asked.groups → IsPlan asked.group_threshold larger
        → HaveMoreMembers asked.groups larger → AreBytes asked.secret → AreBytes random
        → IsCreateOutput asked (whole random) text (Ok tt)
        → All (λ line. Holds line None ⊎ Contains (lines_of (whole text)) line) (lines_of (whole bytes))
        → All (IsNameOfPlan larger) names
        → IsReissueOutput asked.group_threshold larger names (whole bytes) output (Ok tt)
        → All (λ line. Holds line None ⊎ (Contains (lines_of (whole text)) line
        ⊎ Contains (lines_of (whole output)) line)) (lines_of (whole more))
        → HoldsMnemonicsOf asked.passphrase asked.secret (whole more) }
{
    printed_forms();
    larger_plans_keep_the_shares();
    created_backups_reissue();
}

/// What `reissue` gives for mnemonics of a created backup, with its plan and names of it, is at most one text and one
/// answer.
pub fn one_output_of_a_backup()
    ensures reissue { (group_threshold : ℕ) (groups : List Members) (names : Names)
        (passphrase secret : List ℕ) (input : Input) (text other : List ℕ)
        (answer another : Result (Unit {0}) Fault) (mnemonics : HoldsMnemonicsOf passphrase secret input)
        → mnemonics.group_threshold ≡ group_threshold → mnemonics.groups ≡ groups
        → All (IsNameOfPlan groups) names
        → ReissuesCreated group_threshold groups names input text answer
        → ReissuesCreated group_threshold groups names input other another
        → (text ≡ other) × (answer ≡ another) }
{
    one_set();
    shares_of_a_backup_agree();
    shares_that_agree_join();
    one_printed_form();
}
