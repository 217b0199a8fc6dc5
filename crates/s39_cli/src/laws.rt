//! Facts about the definitions. Each is the contract of a function that does nothing, or only calls other laws.
ghost use Rattle.std.specs.Prelude.{◌≡◌, ◌≢◌, ◌↔◌, ◌++◌, ℕ, List, [], ◌∷◌, IsFalse, Option, Some, codes, false, filter, length};
ghost use Rattle.std.specs.List.{range_with_len};
ghost use Rattle.s39_set.specs.Written.{IsWrittenForm};
ghost use Rattle.s39_command.specs.declared.command.Job.{Job};
ghost use Rattle.s39_command.specs.declared.command.Texts.{Texts};
ghost use Rattle.s39_command.specs.Command.{text_in};
ghost use Rattle.s39_cli.specs.declared.telling.TheConstants.{MESSAGE_BYTES};
ghost use Rattle.s39_drilling.specs.Watching.{AreSeen};
ghost use Rattle.s39_cli.specs.Said.{IsNamedIn, IsSaid, Says, SaysCount, is_told, line_if, listed_lines, longest_message, shows_progress};
ghost use Rattle.s39_cli.specs.Ending.{AreAllOf, HoldsBeginning, status_in};
ghost use Rattle.s39_cli.specs.Values.{Told};
ghost use Rattle.s39_cli.specs.declared.terminal.Progress.{Progress};
ghost use Rattle.s39_cli.specs.Terminal.{ConsumesMore, EndsAlike, HasRest};
ghost use Rattle.clap.specs.Words.{Text};
ghost use Rattle.s39_cli.specs.Outcome.{HasNoCause, IsReady};
ghost use Rattle.s39_cli.specs.Headline.{CreatedJobsRecover, DrillJobsList, OneOutcome, RecoverJobsRecover, ReissueJobsReissue, ResplitJobsResplit};
ghost use Rattle.s39_cli.specs.OneEnding.{OneEnding, SomeEnding};
ghost use Rattle.s39_cli.specs.Headline.{RepairsTellOfTwo, SameValuesWriteTheSame, SomeOutcome};

use crate::person::Person;
use crate::runner::Ended;
use s39_backup::laws::one_plan_reading;
use s39_creating::laws::{
    created_backups_are_split_anew, created_backups_reissue, one_create_output, one_reissue_output,
    one_resplit_output,
};
use s39_drilling::laws::{created_backups_drill, one_drill_output, some_drill_output};
use s39_input::laws::{
    one_repair_output, one_show_output, some_repair_output, some_show_output,
    two_mnemonics_are_told,
};
use s39_reading::laws::{
    created_backups_recover, one_recover_output, one_status_output, some_recover_output,
    written_mnemonics_recover,
};
use s39_set::laws::written_forms;

/// The room for a message is that of the definitions: enough for the greatest line, the greatest number, and the longest text with
/// the greatest details.
pub fn numbers()
    ensures room { MESSAGE_BYTES ≡ longest_message }
    ensures longest { longest_message
        ≡ length (codes "shamir: line 18446744073709551615: 255 cannot tell 255.255: "
        ++ codes "255 of 255 members, 255 of 255 other groups\n") }
{}

/// With status 3, a writer that tells its bytes holds what it held and the text up to some place. What a reader that tells its
/// bytes has is exactly these bytes.
pub fn told_bytes_are_exact()
    ensures beginning { (old new text : List ℕ) → HoldsBeginning (Some old) (Some new) text
        → (lost : List ℕ) × (new ++ lost ≡ old ++ text) }
    ensures all { (all bytes : List ℕ) → AreAllOf (Some all) bytes → bytes ≡ all }
{}

/// Only what follows a run that was refused before it read, or that began to read and ended with another status than 0, is to be
/// dropped.
pub fn what_is_dropped()
    ensures unread { (status : ℕ) → HasRest status Progress.Unread ↔ (status ≡ 1) }
    ensures begun { (status : ℕ) → HasRest status Progress.Begun ↔ (status ≢ 0) }
    ensures ended { (status : ℕ) → ¬ HasRest status Progress.Ended }
{}

/// Endings that are alike have the same exit status and the same writer, or memory ran out in both. Of a reader that tells its bytes,
/// the second has read more, or nothing more.
pub fn alike_endings_have_one_status<R, W>()
    ensures status { (remaining : R → Option (List ℕ)) (ended other : Ended R W)
        → EndsAlike remaining ended other → status_in ended ≡ status_in other }
    ensures writer { (remaining : R → Option (List ℕ)) (status also : ℕ) (read_to further : R)
        (written_to taken_to : W)
        → EndsAlike remaining (Ended.With status read_to written_to)
        (Ended.With also further taken_to)
        → (taken_to ≡ written_to) × ConsumesMore (remaining read_to) (remaining further) }
    ensures memory { (remaining : R → Option (List ℕ)) (other : Ended R W)
        → EndsAlike remaining Ended.NoMemory other → other ≡ Ended.NoMemory }
{}

/// If it is said that what a file holds is no value (status 2), the name that is said is that of the secret's file or of the
/// passphrase's, and no other. Of a file that isn't read (status 3), no clause says whose name it is.
pub fn values_are_of_two_files()
    ensures { (files : Texts) (name : Text) → IsNamedIn files name
        → text_in files.secret ≢ Some name → text_in files.passphrase ≡ Some name }
{}

/// If no stream is a terminal, nothing is said with status 0: the device stays as it was.
pub fn nothing_is_said_to_nobody<R, W, E>()
    ensures { (told : Told) (remaining : R → Option (List ℕ)) (contents : E → Option (List ℕ))
        (words : List Text) (reader : R) (old new : Person E) (ended : Ended R W)
        → IsSaid told remaining contents
        (record { input = false; output = false; errors = false }) words reader old new ended
        → status_in ended ≡ 0 → (new.device ≡ old.device) × (new.is_whole ≡ old.is_whole) }
{}

/// What is said while a drill lists so many quorums is `listed_lines`, if a person is told how far it is. If not, the device stays as it
/// was.
pub fn listed_quorums_are_told<E>()
    ensures said { (contents : E → Option (List ℕ)) (n : ℕ) (old new : Person E)
        → AreSeen (SaysCount contents) n old new
        → Says contents old new (line_if (shows_progress old.terminals) (listed_lines n)) }
    ensures silent { (contents : E → Option (List ℕ)) (n : ℕ) (old new : Person E)
        → AreSeen (SaysCount contents) n old new → IsFalse (shows_progress old.terminals)
        → (new.device ≡ old.device) × (new.is_whole ≡ old.is_whole) }
    ensures few { filter is_told (range_with_len 1 40) ≡ 1 ∷ 2 ∷ 4 ∷ 8 ∷ 16 ∷ 32 ∷ [] }
    ensures many { filter is_told (1048576 ∷ 1048577 ∷ 1572864 ∷ 2097152 ∷ 3145728 ∷ 4194303 ∷ [])
        ≡ 1048576 ∷ 2097152 ∷ 3145728 ∷ [] }
{}

/// There is a text that writes names.
pub fn some_text_writes_names()
    ensures { IsWrittenForm (codes "0.0") ((0, 0) ∷ []) }
{}

/// Jobs with the same values write the same.
pub fn same_values_write_the_same()
    ensures { SameValuesWriteTheSame }
{}

/// A job that can be begun has none of the causes for which a job isn't begun.
pub fn ready_jobs_have_no_cause()
    ensures { (job : Job) (secret : List ℕ) → IsReady job secret → HasNoCause job secret }
{}

/// A job that can be begun writes a text for each input of bytes, and ends with an exit status. The random bytes of a split anew are
/// bytes too.
pub fn some_outcome()
    ensures { SomeOutcome }
{
    some_show_output();
    one_create_output();
    some_recover_output();
    some_drill_output();
    one_status_output();
    one_reissue_output();
    one_resplit_output();
    some_repair_output();
}

/// A job writes one text for an input, and ends with one exit status.
pub fn one_outcome()
    ensures { OneOutcome }
{
    one_show_output();
    one_create_output();
    one_recover_output();
    one_drill_output();
    one_status_output();
    one_reissue_output();
    one_resplit_output();
    one_repair_output();
    one_plan_reading();
    written_forms();
}

/// Files, an input and an output that tell their bytes, and no call of which fails, give one exit status and one output, if the
/// words don't ask for help or the version.
pub fn one_ending<R, W>()
    ensures { (remaining : R → Option (List ℕ)) (contents : W → Option (List ℕ))
        → OneEnding remaining contents }
{
    one_outcome();
}

/// There is such an ending: words that name no file of a secret or a passphrase, and whose job can be begun, end as its outcome says.
pub fn some_ending()
    ensures { SomeEnding }
{}

/// If two mnemonics fit a line, the exit status of a repair isn't 0. If its status is 1, two mnemonics fit some line, or it is
/// refused.
pub fn repairs_tell_of_two()
    ensures { RepairsTellOfTwo }
{
    two_mnemonics_are_told();
}

/// For mnemonics of a backup that was created with its passphrase, a drill lists exactly their quorums after the given one, or
/// answers why there is none.
pub fn drill_jobs_list()
    ensures { DrillJobsList }
{
    created_backups_drill();
}

/// For mnemonics of a backup that was created with its passphrase, a recovery writes the secret, or nothing if there is no quorum or
/// another fingerprint is expected.
pub fn recover_jobs_recover()
    ensures { RecoverJobsRecover }
{
    created_backups_recover();
}

/// For mnemonics of a backup that was created by its plan, which has its names, a reissue writes the backup's own mnemonics with
/// these names, or nothing if they aren't determined.
pub fn reissue_jobs_reissue()
    ensures { ReissueJobsReissue }
{
    created_backups_reissue();
}

/// For mnemonics of a created backup, a split anew writes what a creation by its plan and its random bytes writes from the secret of
/// that backup, or nothing, and then its answer is why.
pub fn resplit_jobs_resplit()
    ensures { ResplitJobsResplit }
{
    created_backups_are_split_anew();
}

/// A recovery of what a creation with the same passphrase wrote gives the secret back.
pub fn created_jobs_recover()
    ensures { CreatedJobsRecover }
{
    written_mnemonics_recover();
    one_recover_output();
}
