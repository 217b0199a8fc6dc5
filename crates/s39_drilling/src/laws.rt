//! Facts about the definitions. Each is the contract of a function that does nothing.
ghost use Rattle.std.specs.Prelude.{◌≡◌, ℕ, List, Result, Err, ◌+◌, ◌++◌, suc, Option, Some};
ghost use Rattle.s39_words.specs.declared.ShareFields.{ShareFields};
ghost use Rattle.s39_set.specs.ShareSet.{IsShareSet};
ghost use Rattle.s39_kdf.specs.Limits.{IsFirstUnprintable};
ghost use Rattle.s39_kdf.specs.declared.limits.BadPassphrase.{BadPassphrase};
ghost use Rattle.s39_input.specs.Device.{Counted};
ghost use Rattle.s39_input.specs.Fault.{fault_of};
ghost use Rattle.s39_input.specs.declared.fault.Refusal.TheVariants.{Passphrase};
ghost use Rattle.s39_input.specs.Runs.{Runs, Writes};
ghost use Rattle.s39_input.specs.declared.fault.Fault.{Fault};
ghost use Rattle.s39_kdf.specs.declared.secret_form.SecretForm.{SecretForm};
ghost use Rattle.s39_input.specs.Input.{Input};
ghost use Rattle.s39_set.specs.Names.{Names};
ghost use Rattle.s39_drilling.specs.declared.drill.Done.{Done};
ghost use Rattle.s39_drilling.specs.Drill.{DrillLaws, IsDrill, IsDrillOutput, DrillsCreated};
ghost use Rattle.s39_drilling.specs.declared.listing.Listing.{Listing};
ghost use Rattle.s39_input.specs.declared.slices.NoOutput.{NoOutput};
ghost use Rattle.s39_drilling.specs.Slices.{Lists};

pub use crate::length_laws::{each_listed_quorum_is_a_line, first_lines_are_short};
pub use crate::round_trips::{one_output_of_a_backup, written_mnemonics_drill};
use s39_backup::laws::{every_quorum_has_an_outcome, every_quorum_recovers, one_outcome};
use s39_input::laws::{
    accepted_inputs_are_share_sets, mnemonics_of_a_backup_are_a_set, one_checked_set,
};
use s39_set::laws::{listings_join, one_lack, one_listing, quorum_or_lack, walks_list_all};
use std::io::{Read, Write};

/// This holds for all devices, even if they don't tell their bytes. `drill` refuses a passphrase only if a byte of it
/// isn't printable, and names the first such byte.
pub fn refusals_have_causes<R: Read, W: Write>()
    ensures drill { (form : SecretForm) (passphrase : List ℕ) (after : Option Names) (limit : ℕ)
        (reader read_to : Counted R) (writer written_to : Counted W) (bad : BadPassphrase)
        → Runs R.remaining W.contents (IsDrillOutput form passphrase after limit) reader read_to
        writer written_to (Err (fault_of (Passphrase bad)))
        → IsFirstUnprintable passphrase bad.position }
{}

/// If a run of `drill` answers without a read, its answer is right for every input. This holds for all devices.
pub fn unread_inputs_decide_nothing<R: Read, W: Write>()
    ensures drill { (form : SecretForm) (passphrase : List ℕ) (after : Option Names) (limit : ℕ)
        (reader read_to : Counted R) (writer written_to : Counted W) (answer : Result Done Fault)
        → Runs R.remaining W.contents (IsDrillOutput form passphrase after limit) reader read_to
        writer written_to answer
        → read_to.reads ≡ reader.reads → read_to.failures ≡ reader.failures → (input : Input)
        → Writes W.contents (IsDrillOutput form passphrase after limit input) writer written_to answer }
{}

/// What drills need to know about listings and outcomes.
pub(crate) fn drill_laws()
    ensures { DrillLaws }
{
    every_quorum_has_an_outcome();
    listings_join();
    one_listing();
    walks_list_all();
}

/// For a passphrase, an optional list of names to start after, and a limit, a set has at most one drill. That is, there
/// is at most one text, one answer whether more quorums remain, and one number of mismatches. There is such a drill if
/// the limit is at least 1.
pub fn one_drill_of_a_set()
    ensures once { (form : SecretForm) (set : List ShareFields) (passphrase : List ℕ) (after : Option Names)
        (limit : ℕ) (text other : List ℕ) (more another : Option Names)
        (mismatches others : ℕ) → IsShareSet set
        → IsDrill form set passphrase after limit text more mismatches
        → IsDrill form set passphrase after limit other another others
        → (text ≡ other) × (more ≡ another) × (mismatches ≡ others) }
    ensures exists { (form : SecretForm) (set : List ShareFields) (passphrase : List ℕ)
        (after : Option Names) (limit : ℕ) → IsShareSet set
        → (text : List ℕ) × (more : Option Names) × (mismatches : ℕ)
        × IsDrill form set passphrase after (suc limit) text more mismatches }
{
    one_outcome();
    one_listing();
    drill_laws();
}

/// Take the quorums' lines of a drill whose last line is `more after` a quorum, and append those of the drill after
/// that quorum. They are the lines of one drill, whose limit is the sum of both limits. Its last line is that of the
/// second drill, and its number of mismatches is the sum.
pub fn drills_join()
    ensures { (form : SecretForm) (set : List ShareFields) (passphrase : List ℕ) (after : Option Names)
        (limit extra : ℕ) (text others : List ℕ) (names : Names)
        (more : Option Names) (mismatches later : ℕ)
        → IsDrill form set passphrase after limit text (Some names) mismatches
        → IsDrill form set passphrase (Some names) extra others more later
        → IsDrill form set passphrase after (limit + extra) (text ++ others) more (mismatches + later) }
{
    listings_join();
}

/// For a passphrase, an optional list of names to start after, and a limit, an input has at most one output of `drill`:
/// one text and one answer.
pub fn one_drill_output()
    ensures { (form : SecretForm) (passphrase : List ℕ) (after : Option Names) (limit : ℕ) (input : Input)
        (text other : List ℕ) (answer another : Result Done Fault)
        → IsDrillOutput form passphrase after limit input text answer
        → IsDrillOutput form passphrase after limit input other another
        → (text ≡ other) × (answer ≡ another) }
{
    one_checked_set();
    one_lack();
    one_listing();
    one_outcome();
}

/// The listing of an input in a slice has at most one result: one slice, and one answer.
pub fn one_listing_in_a_slice()
    ensures { (form : SecretForm) (passphrase : List ℕ) (after : Option Names) (limit : ℕ) (input : Input)
        (old new other : List ℕ) (answer another : Result Listing NoOutput)
        → Lists (λ n. IsDrillOutput form passphrase after n input) limit old new answer
        → Lists (λ n. IsDrillOutput form passphrase after n input) limit old other another
        → (new ≡ other) × (answer ≡ another) }
{
    one_drill_output();
}

/// Every input has an output of `drill`, if the limit is at least 1.
pub fn some_drill_output()
    ensures { (form : SecretForm) (passphrase : List ℕ) (after : Option Names) (limit : ℕ) (input : Input)
        → (text : List ℕ) × (answer : Result Done Fault)
        × IsDrillOutput form passphrase after (suc limit) input text answer }
{
    one_checked_set();
    one_lack();
    quorum_or_lack();
    drill_laws();
}

/// For mnemonics of a created backup, an output of `drill` with the passphrase of the creation is exactly the quorums
/// after the given one, in order, as many as the limit allows, each with the backup's secret, and no mismatch, unless
/// another fingerprint is expected. Otherwise it is the reason why none is listed.
pub fn created_backups_drill()
    ensures { (form : SecretForm) (passphrase : List ℕ) (after : Option Names) (limit : ℕ) (input : Input)
        (text : List ℕ) (answer : Result Done Fault)
        → IsDrillOutput form passphrase after limit input text answer
        → DrillsCreated form passphrase after limit input text answer }
{
    one_checked_set();
    accepted_inputs_are_share_sets();
    one_outcome();
    every_quorum_recovers();
    mnemonics_of_a_backup_are_a_set();
}
