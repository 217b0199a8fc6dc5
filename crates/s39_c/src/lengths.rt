//! The buffer lengths that the header names, in bytes, and facts about them. Each fact is the contract of a function
//! that has no effect.
ghost use Rattle.std.specs.Prelude.{◌≡◌, ◌*◌, ◌<◌, ◌≤◌, ℕ, List, [], length};
ghost use Rattle.s39_kdf.specs.Fingerprint.{fingerprint_length};
ghost use Rattle.s39_set.specs.Names.{Names};
ghost use Rattle.s39_set.specs.Written.{IsWrittenForm};
ghost use Rattle.s39_drilling.specs.Drill.{IsDrillOutput};
ghost use Rattle.s39_input.specs.Input.{whole};
ghost use Rattle.s39_input.specs.Lengths.{longest_names};
ghost use Rattle.s39_drilling.specs.Lengths.{longest_listing};
ghost use Rattle.s39_creating.specs.Lengths.{longest_backup};
ghost use Rattle.s39_reading.specs.Lengths.{longest_status};
ghost use Rattle.s39_creating.specs.Reissue.{IsReissueOutput};
ghost use Rattle.s39_creating.specs.Resplit.{IsResplitOutput};
ghost use Rattle.s39_c.specs.declared.encrypted.ShamirParameters.{ShamirParameters as Parameters};
ghost use Rattle.s39_reading.specs.Status.{IsStatusOutput};
ghost use Rattle.s39_c.specs.declared.lengths.TheConstants.{NAMES_BYTES_MAX, LISTING_BYTES_ENOUGH, MNEMONICS_BYTES_MAX, STATUS_BYTES_MAX, FINGERPRINT_BYTES_MAX, WORDS_BYTES_MAX, REPAIRED_BYTES_MAX, TEXT_BYTES_MAX};
ghost use Rattle.s39_c.specs.Answers.{done, too_short};
ghost use Rattle.s39_c.specs.Creating.{Wanted, GivesBackup};
ghost use Rattle.s39_c.specs.Drilling.{GivesDrill, GivesListing};
ghost use Rattle.s39_c.specs.Exponents.{GivesUpTo};
ghost use Rattle.s39_c.specs.Fingerprinting.{GivesFingerprint};
ghost use Rattle.s39_c.specs.declared.judging.ShamirJudgement.{ShamirJudgement as Judgement};
ghost use Rattle.s39_c.specs.Judging.{GivesJudgement};
ghost use Rattle.s39_c.specs.Reissuing.{GivesReissued};
ghost use Rattle.s39_c.specs.Resplitting.{GivesFromEncrypted, GivesSplit};
ghost use Rattle.s39_c.specs.Repairing.{longest_repaired, GivesRepaired};
ghost use Rattle.s39_c.specs.Status.{GivesStatus};
ghost use Rattle.s39_c.specs.Telling.{longest_text, GivesText};
ghost use Rattle.s39_c.specs.Words.{longest_words, words_text, GivesWords};

use s39_creating::laws::{
    backups_are_short, backups_from_encrypted_are_short, reissues_are_short, resplits_are_short,
};
use s39_drilling::laws::first_lines_are_short;
use s39_input::laws::{judged_sets_have_their_shares, names_are_short};
use s39_reading::laws::{statuses_are_short, statuses_of_sets_are_short};
use s39_words::laws::printed_forms;

/// The maximum length of a list of names, such as the names of a quorum.
pub const NAMES_BYTES_MAX: usize = 1_215;

/// A buffer length that is enough for the line of any quorum with the last line, and so for each call of a drill.
pub const LISTING_BYTES_ENOUGH: usize = 2_700;

/// The maximum length of all mnemonics of a backup, each with its line feed.
pub const MNEMONICS_BYTES_MAX: usize = 253_440;

/// The length of the text of a fingerprint, which has two digits for each of its bytes.
pub const FINGERPRINT_BYTES_MAX: usize = 8;

/// The maximum length of a status.
pub const STATUS_BYTES_MAX: usize = 1_638;

/// The maximum length of a list of words, which is the length of all words, each with its line feed.
pub const WORDS_BYTES_MAX: usize = 7_231;

/// The maximum length of the mnemonics that fit a line, which are two at most, each with its line feed.
pub const REPAIRED_BYTES_MAX: usize = 1_980;

/// The maximum length of the text of an answer.
pub const TEXT_BYTES_MAX: usize = 64;

/// The constants equal the numbers of the definitions.
pub fn lengths()
    ensures names { NAMES_BYTES_MAX ≡ longest_names }
    ensures listing { LISTING_BYTES_ENOUGH ≡ longest_listing }
    ensures mnemonics { MNEMONICS_BYTES_MAX ≡ longest_backup }
    ensures fingerprint { FINGERPRINT_BYTES_MAX ≡ 2 * fingerprint_length }
    ensures status { STATUS_BYTES_MAX ≡ longest_status }
    ensures words { WORDS_BYTES_MAX ≡ longest_words }
    ensures repaired { REPAIRED_BYTES_MAX ≡ longest_repaired }
    ensures text { TEXT_BYTES_MAX ≡ longest_text }
{}

/// A list of names, as a listing has it and as a drill takes it, is no longer than the maximum.
pub fn names_fit()
    ensures { (text : List ℕ) (names : Names) → IsWrittenForm text names
        → length text ≤ NAMES_BYTES_MAX }
{
    names_are_short();
}

/// If a drill refuses a buffer as too short, the buffer is shorter than `LISTING_BYTES_ENOUGH`.
pub fn listings_fit()
    ensures { (most : ℕ) (passphrase lines cursor : List ℕ) (limit number : ℕ) (digits old new : List ℕ)
        (needed : ℕ) → GivesDrill (λ form names. GivesUpTo most passphrase lines
        (GivesListing (λ n. IsDrillOutput form passphrase names n (whole lines)) limit old) old)
        cursor limit number digits old new (too_short needed)
        → length old < LISTING_BYTES_ENOUGH }
{
    first_lines_are_short();
}

/// If a creation refuses a buffer as too short, the buffer is shorter than `MNEMONICS_BYTES_MAX`.
pub fn backups_fit()
    ensures { (wanted : Wanted) (random old new : List ℕ) (needed : ℕ)
        → GivesBackup wanted random old new (too_short needed)
        → length old < MNEMONICS_BYTES_MAX }
{
    backups_are_short();
}

/// If a buffer is refused as too short for a fingerprint, it is shorter than `FINGERPRINT_BYTES_MAX`, which is the
/// length that the refusal asks for.
pub fn fingerprints_fit()
    ensures { (secret old new : List ℕ) (needed : ℕ)
        → GivesFingerprint secret old new (too_short needed)
        → (needed ≡ FINGERPRINT_BYTES_MAX) × (length old < FINGERPRINT_BYTES_MAX) }
{}

/// If a status refuses a buffer as too short, the buffer is shorter than `STATUS_BYTES_MAX`.
pub fn statuses_fit()
    ensures { (lines old new : List ℕ) (needed : ℕ)
        → GivesStatus (IsStatusOutput (whole lines)) old new (too_short needed)
        → length old < STATUS_BYTES_MAX }
{
    statuses_are_short();
}

/// If a judgement refuses a buffer as too short, the buffer is shorter than `STATUS_BYTES_MAX`.
pub fn judgements_fit()
    ensures { (lines line : List ℕ) (judgement after : Judgement) (old new : List ℕ) (needed : ℕ)
        → GivesJudgement lines line judgement after old new (too_short needed)
        → length old < STATUS_BYTES_MAX }
{
    judged_sets_have_their_shares();
    statuses_of_sets_are_short();
}

/// If a reissue refuses a buffer as too short, the buffer is shorter than `MNEMONICS_BYTES_MAX`.
pub fn reissues_fit()
    ensures { (plan listed lines old new : List ℕ) (needed : ℕ)
        → GivesReissued (λ threshold groups names. IsReissueOutput threshold groups names (whole lines))
        plan listed old new (too_short needed)
        → length old < MNEMONICS_BYTES_MAX }
{
    reissues_are_short();
}

/// If a split anew refuses a buffer as too short, the buffer is shorter than `MNEMONICS_BYTES_MAX`.
pub fn splits_fit()
    ensures { (plan lines random old new : List ℕ) (needed : ℕ)
        → GivesSplit (λ threshold groups. IsResplitOutput threshold groups random (whole lines))
        plan old new (too_short needed)
        → length old < MNEMONICS_BYTES_MAX }
{
    resplits_are_short();
}

/// If a creation from an encrypted secret refuses a buffer as too short, the buffer is shorter than `MNEMONICS_BYTES_MAX`.
pub fn backups_from_encrypted_fit()
    ensures { (parameters : Parameters) (encrypted random plan old new : List ℕ) (needed : ℕ)
        → GivesFromEncrypted parameters encrypted random plan old new (too_short needed)
        → length old < MNEMONICS_BYTES_MAX }
{
    backups_from_encrypted_are_short();
}

/// If a buffer is refused as too short for words, it is shorter than `WORDS_BYTES_MAX`. The list of
/// all words, which no letters give, has exactly that length.
pub fn words_fit()
    ensures most { (letters old new : List ℕ) (needed : ℕ)
        → GivesWords letters old new (too_short needed) → length old < WORDS_BYTES_MAX }
    ensures reached { length (words_text []) ≡ WORDS_BYTES_MAX }
{}

/// If a buffer is refused as too short for the mnemonics that fit a line, it is shorter than `REPAIRED_BYTES_MAX`.
pub fn repairs_fit()
    ensures { (line old new : List ℕ) (needed : ℕ) → GivesRepaired line old new (too_short needed)
        → length old < REPAIRED_BYTES_MAX }
{
    printed_forms();
}

/// If a buffer is refused as too short for the text of an answer, it is shorter than `TEXT_BYTES_MAX`, and the refusal
/// asks for at most that length. A text that is written is no longer than that.
pub fn texts_fit()
    ensures short { (old new : List ℕ) (needed : ℕ) → GivesText old new (too_short needed)
        → (length old < TEXT_BYTES_MAX) × (needed ≤ TEXT_BYTES_MAX) }
    ensures written { (old new : List ℕ) (written : ℕ) → GivesText old new (done written)
        → (written ≤ length old) × (written ≤ TEXT_BYTES_MAX) }
{}
