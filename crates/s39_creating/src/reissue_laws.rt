//! What `reissue` writes: facts about the definitions. Each is the contract of a function that does nothing.
ghost use Rattle.std.specs.Prelude.{◌≡◌, ℕ, List, Result};
ghost use Rattle.s39_set.specs.Names.{Names};
ghost use Rattle.s39_backup.specs.declared.plan.Members.{Members};
ghost use Rattle.s39_backup.specs.Plan.{IsPlan};
ghost use Rattle.s39_input.specs.declared.fault.Fault.{Fault};
ghost use Rattle.s39_input.specs.Input.{Input};
ghost use Rattle.s39_creating.specs.Reissue.{IsReissueOutput, ReissuesCreated};

use s39_backup::laws::{
    backups_reissue_their_shares, every_name_has_a_reissue, names_are_determined_or_not,
    reissued_shares_are_shares,
};
use s39_input::laws::{
    accepted_inputs_are_share_sets, every_input_is_read, mnemonics_are_read_as_their_shares,
    one_set,
};
use s39_words::laws::{every_share_has_a_printed_form, one_printed_form};

/// An input has exactly one output of `reissue` for a plan and names: one text, and one answer.
pub fn one_reissue_output()
    ensures once { (group_threshold : ℕ) (groups : List Members) (names : Names)
        (input : Input) (text other : List ℕ) (answer another : Result (Unit {0}) Fault)
        → IsPlan group_threshold groups
        → IsReissueOutput group_threshold groups names input text answer
        → IsReissueOutput group_threshold groups names input other another
        → (text ≡ other) × (answer ≡ another) }
    ensures exists { (group_threshold : ℕ) (groups : List Members) (names : Names)
        (input : Input) → IsPlan group_threshold groups
        → (text : List ℕ) × (answer : Result (Unit {0}) Fault)
        × IsReissueOutput group_threshold groups names input text answer }
{
    one_set();
    every_input_is_read();
    reissued_shares_are_shares();
    one_printed_form();
    every_share_has_a_printed_form();
}

/// For mnemonics of a created backup, an output of `reissue` with its plan and names of it is the backup's mnemonics
/// with these names. Otherwise it says how many members and groups are at hand and needed for the first name that isn't
/// determined, or that there are no shares.
pub fn created_backups_reissue()
    ensures { (group_threshold : ℕ) (groups : List Members) (names : Names)
        (input : Input) (text : List ℕ) (answer : Result (Unit {0}) Fault)
        → IsReissueOutput group_threshold groups names input text answer
        → ReissuesCreated group_threshold groups names input text answer }
{
    one_set();
    accepted_inputs_are_share_sets();
    mnemonics_are_read_as_their_shares();
    backups_reissue_their_shares();
    every_name_has_a_reissue();
    names_are_determined_or_not();
}
