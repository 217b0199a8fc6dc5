//! Facts about the definitions. Each is the contract of a function that has no effect.
//!
//! The arguments of a call, with what its buffers held before, determine its answer and what its buffers hold
//! afterwards. A `max_exponent` of 15 or more refuses nothing. `lengths.rt` has the laws about the lengths that the header names.
ghost use Rattle.std.specs.Prelude.{◌≡◌, ◌≢◌, ◌↔◌, ℕ, ◌-◌, ◌^◌, ◌<◌, ◌≤◌, min, List, [], length, take, None, Result, Ok, Err};
ghost use Rattle.s39_kdf.specs.declared.params.Params.{Params};
ghost use Rattle.s39_kdf.specs.Rounds.{rounds};
ghost use Rattle.s39_kdf.specs.declared.secret_form.SecretForm.TheVariants.{Digits};
ghost use Rattle.s39_words.specs.declared.ShareFields.{ShareFields};
ghost use Rattle.s39_set.specs.Names.{Names};
ghost use Rattle.s39_set.specs.ShareSet.{IsShareSet};
ghost use Rattle.s39_set.specs.Listing.{AreAllQuorumsAfter};
ghost use Rattle.s39_backup.specs.declared.plan.Members.{Members};
ghost use Rattle.s39_drilling.specs.Drill.{IsDrillOutput};
ghost use Rattle.s39_input.specs.declared.fault.Fault.{Fault};
ghost use Rattle.s39_input.specs.Input.{Input, whole};
ghost use Rattle.s39_reading.specs.Encrypted.{IsDecryption, IsEncryptedIn};
ghost use Rattle.s39_reading.specs.Recover.{IsRecoverOutput};
ghost use Rattle.s39_creating.specs.Reissue.{IsReissueOutput};
ghost use Rattle.s39_creating.specs.Resplit.{IsOutputFromEncrypted, IsResplitOutput};
ghost use Rattle.s39_reading.specs.Status.{IsStatusOutput};
ghost use Rattle.s39_reading.specs.Encrypted.{IsRoundDecryption};
ghost use Rattle.s39_c.specs.declared.answer.ShamirAnswer.{ShamirAnswer as Answer};
ghost use Rattle.s39_c.specs.declared.encrypted.ShamirParameters.{ShamirParameters as Parameters};
ghost use Rattle.s39_c.specs.declared.judging.ShamirJudgement.{ShamirJudgement as Judgement};
ghost use Rattle.s39_c.specs.declared.parsing.ShamirShare.{ShamirShare as Header};
ghost use Rattle.s39_c.specs.Answers.{done, number};
ghost use Rattle.s39_c.specs.Counting.{counted_answer};
ghost use Rattle.s39_c.specs.Creating.{Wanted, GivesBackup, GivesNumber};
ghost use Rattle.s39_c.specs.Drilling.{GivesDrill, GivesListing};
ghost use Rattle.s39_c.specs.Encrypted.{GivesDecrypted, GivesEncrypted};
ghost use Rattle.s39_c.specs.Exponents.{GivesUpTo};
ghost use Rattle.s39_c.specs.Fingerprinting.{GivesFingerprint};
ghost use Rattle.s39_c.specs.Judging.{GivesJudgement};
ghost use Rattle.s39_c.specs.Parsing.{GivesShare};
ghost use Rattle.s39_c.specs.Recovering.{GivesExpectedSecret, GivesSecret};
ghost use Rattle.s39_c.specs.Reissuing.{GivesReissued};
ghost use Rattle.s39_c.specs.Repairing.{GivesRepaired};
ghost use Rattle.s39_c.specs.Resplitting.{GivesFromEncrypted, GivesSplit};
ghost use Rattle.s39_c.specs.Rounds.{GivesDecryptedRound};
ghost use Rattle.s39_c.specs.Status.{GivesStatus};
ghost use Rattle.s39_c.specs.Words.{GivesWords};

use s39_backup::laws::{every_quorum_has_an_outcome, one_plan_reading, outcomes_in_range};
use s39_backup::resplit_laws::resplits_split_encrypted_secrets;
use s39_creating::laws::{
    one_create_output, one_output_from_encrypted, one_reissue_output, one_resplit_output,
};
use s39_drilling::laws::one_listing_in_a_slice;
use s39_input::laws::{accepted_inputs_are_share_sets, one_checked_set};
use s39_kdf::laws::{
    encryption_keeps_length_and_bytes, passphrases_are_printable_or_not,
    undoing_keeps_length_and_bytes, undone_rounds_decrypt,
};
use s39_reading::laws::{
    one_decryption, one_encrypted_secret, one_exponent, one_recover_output, one_round,
    shares_have_the_exponent,
};
use s39_repair::laws::one_answer;
use s39_set::laws::{one_first_quorum, one_lack, quorums_are_counted, written_forms};
use s39_words::laws::one_printed_form;

/// A line determines the fields, the buffer of the value and the answer of `shamir_parse`.
pub fn one_share()
    ensures { (line : List ℕ) (header first second : Header) (old new other : List ℕ)
        (answer another : Answer) → GivesShare line header first old new answer
        → GivesShare line header second old other another
        → (first ≡ second) × (new ≡ other) × (answer ≡ another) }
{}

/// The text of a plan and the length of a secret determine the answer of `shamir_random_needed`.
pub fn one_number()
    ensures { (plan : List ℕ) (n : ℕ) (answer another : Answer) → GivesNumber plan n answer
        → GivesNumber plan n another → answer ≡ another }
{
    one_plan_reading();
}

/// The arguments of `shamir_create` determine the buffer of mnemonics and the answer.
pub fn one_backup()
    ensures { (wanted : Wanted) (random old new other : List ℕ) (answer another : Answer)
        → GivesBackup wanted random old new answer → GivesBackup wanted random old other another
        → (new ≡ other) × (answer ≡ another) }
{
    one_plan_reading();
    one_create_output();
}

/// A secret determines the buffer and the answer of `shamir_fingerprint`.
pub fn one_fingerprint()
    ensures { (secret old new other : List ℕ) (answer another : Answer)
        → GivesFingerprint secret old new answer → GivesFingerprint secret old other another
        → (new ≡ other) × (answer ≡ another) }
{}

/// Letters determine the buffer and the answer of `shamir_words`.
pub fn one_list_of_words()
    ensures { (letters old new other : List ℕ) (answer another : Answer)
        → GivesWords letters old new answer → GivesWords letters old other another
        → (new ≡ other) × (answer ≡ another) }
{}

/// Lines, passphrase, maximum exponent and the text of a fingerprint determine the buffer of the secret and the answer of
/// `shamir_recover`.
pub fn one_secret()
    ensures { (most : ℕ) (passphrase lines digits old new other : List ℕ) (answer another : Answer)
        → GivesExpectedSecret (λ noted. GivesUpTo most passphrase lines
        (GivesSecret (IsRecoverOutput Digits noted passphrase (whole lines)) old) old) digits old new answer
        → GivesExpectedSecret (λ noted. GivesUpTo most passphrase lines
        (GivesSecret (IsRecoverOutput Digits noted passphrase (whole lines)) old) old) digits old other another
        → (new ≡ other) × (answer ≡ another) }
{
    one_checked_set();
    one_exponent();
    one_recover_output();
}

/// Lines determine the parameters, the buffer of the encrypted secret and the answer of `shamir_encrypted`, and there are such ones.
pub fn one_encrypted()
    ensures once { (lines : List ℕ) (parameters first second : Parameters) (old new other : List ℕ)
        (answer another : Answer) → GivesEncrypted lines parameters first old new answer
        → GivesEncrypted lines parameters second old other another
        → (first ≡ second) × (new ≡ other) × (answer ≡ another) }
    ensures exists { (lines : List ℕ) (parameters : Parameters) (old : List ℕ)
        → (after : Parameters) × (new : List ℕ) × (answer : Answer) × GivesEncrypted lines parameters after old new answer }
{
    one_encrypted_secret();
}

/// Parameters, an encrypted secret, a passphrase and the text of a fingerprint determine the buffer of the secret and the answer of
/// `shamir_decrypt`, and there are such ones.
pub fn one_decrypted()
    ensures once { (parameters : Parameters) (passphrase encrypted digits old new other : List ℕ)
        (answer another : Answer)
        → GivesDecrypted parameters (λ params noted. IsDecryption noted passphrase (params, encrypted)) digits old new answer
        → GivesDecrypted parameters (λ params noted. IsDecryption noted passphrase (params, encrypted)) digits old other another
        → (new ≡ other) × (answer ≡ another) }
    ensures exists { (parameters : Parameters) (passphrase encrypted digits old : List ℕ)
        → (new : List ℕ) × (answer : Answer)
        × GivesDecrypted parameters (λ params noted. IsDecryption noted passphrase (params, encrypted)) digits old new answer }
{
    one_decryption();
}

/// Parameters, the number of a round, a text and a passphrase determine the buffer of the undone text and the answer of
/// `shamir_decrypt_round`, and there are such ones.
pub fn one_decrypted_round()
    ensures once { (parameters : Parameters) (round : ℕ) (encrypted passphrase old new other : List ℕ)
        (answer another : Answer)
        → GivesDecryptedRound parameters round encrypted passphrase old new answer
        → GivesDecryptedRound parameters round encrypted passphrase old other another
        → (new ≡ other) × (answer ≡ another) }
    ensures exists { (parameters : Parameters) (round : ℕ) (encrypted passphrase old : List ℕ)
        → (new : List ℕ) × (answer : Answer)
        × GivesDecryptedRound parameters round encrypted passphrase old new answer }
{
    one_round();
}

/// A decryption is four rounds: calls of `shamir_decrypt_round` with the rounds 3, 2, 1 and 0, each for the text that the one before
/// it gave, give at last what `shamir_decrypt` gives if no fingerprint is expected. In a slice of the same length, the first call has
/// the answer of `shamir_decrypt`. A text that a call gave isn't refused by another one whose slice is long enough.
pub fn decryptions_are_four_rounds()
    ensures secrets { (passphrase : List ℕ) (params : Params) (encrypted third second first secret : List ℕ)
        → IsRoundDecryption 3 passphrase (params, encrypted) (Ok third)
        → IsRoundDecryption 2 passphrase (params, third) (Ok second)
        → IsRoundDecryption 1 passphrase (params, second) (Ok first)
        → IsRoundDecryption 0 passphrase (params, first) (Ok secret)
        → IsDecryption None passphrase (params, encrypted) (Ok secret) }
    ensures refusals { (passphrase : List ℕ) (params : Params) (encrypted : List ℕ) (fault : Fault)
        → IsRoundDecryption 3 passphrase (params, encrypted) (Err fault)
        ↔ IsDecryption None passphrase (params, encrypted) (Err fault) }
    ensures calls { (parameters : Parameters) (passphrase encrypted : List ℕ)
        (l m n : ℕ) (old3 new3 old2 new2 old1 new1 old new : List ℕ) (answer : Answer)
        → GivesDecryptedRound parameters 3 encrypted passphrase old3 new3 (done l)
        → GivesDecryptedRound parameters 2 (take l new3) passphrase old2 new2 (done m)
        → GivesDecryptedRound parameters 1 (take m new2) passphrase old1 new1 (done n)
        → GivesDecryptedRound parameters 0 (take n new1) passphrase old new answer
        → GivesDecrypted parameters (λ params noted. IsDecryption noted passphrase (params, encrypted)) [] old new answer }
    ensures begins { (parameters : Parameters) (passphrase encrypted old new before after : List ℕ)
        (answer other : Answer) → length old ≡ length before
        → GivesDecrypted parameters (λ params noted. IsDecryption noted passphrase (params, encrypted)) [] old new answer
        → GivesDecryptedRound parameters 3 encrypted passphrase before after other → other ≡ answer }
    ensures goes_on { (parameters : Parameters) (passphrase text : List ℕ) (round next n : ℕ)
        (before after old new : List ℕ) (answer : Answer)
        → GivesDecryptedRound parameters round text passphrase before after (done n)
        → next < rounds → n ≤ length old
        → GivesDecryptedRound parameters next (take n after) passphrase old new answer → answer ≡ done n }
{
    passphrases_are_printable_or_not();
    undoing_keeps_length_and_bytes();
    undone_rounds_decrypt();
    encryption_keeps_length_and_bytes();
    one_decryption();
}

/// Lines, passphrase, maximum exponent, cursor, limit, the number of the form and the text of a fingerprint determine the
/// buffer of the listing and the answer of `shamir_drill`.
pub fn one_drill()
    ensures { (most : ℕ) (passphrase lines cursor : List ℕ) (limit number : ℕ) (digits old new other : List ℕ)
        (answer another : Answer)
        → GivesDrill (λ form names. GivesUpTo most passphrase lines
        (GivesListing (λ n. IsDrillOutput form passphrase names n (whole lines)) limit old) old)
        cursor limit number digits old new answer
        → GivesDrill (λ form names. GivesUpTo most passphrase lines
        (GivesListing (λ n. IsDrillOutput form passphrase names n (whole lines)) limit old) old)
        cursor limit number digits old other another
        → (new ≡ other) × (answer ≡ another) }
{
    one_checked_set();
    one_exponent();
    one_listing_in_a_slice();
    written_forms();
}

/// The text of a plan, a list of names, and lines determine the buffer of mnemonics and the answer of `shamir_reissue`.
pub fn one_reissue()
    ensures { (plan listed lines old new other : List ℕ) (answer another : Answer)
        → GivesReissued (λ threshold groups names. IsReissueOutput threshold groups names (whole lines))
        plan listed old new answer
        → GivesReissued (λ threshold groups names. IsReissueOutput threshold groups names (whole lines))
        plan listed old other another
        → (new ≡ other) × (answer ≡ another) }
{
    one_plan_reading();
    written_forms();
    one_reissue_output();
}

/// The text of a plan, lines and random bytes determine the buffer of mnemonics and the answer of `shamir_resplit`.
pub fn one_split()
    ensures { (plan lines random old new other : List ℕ) (answer another : Answer)
        → GivesSplit (λ threshold groups. IsResplitOutput threshold groups random (whole lines))
        plan old new answer
        → GivesSplit (λ threshold groups. IsResplitOutput threshold groups random (whole lines))
        plan old other another
        → (new ≡ other) × (answer ≡ another) }
{
    one_plan_reading();
    one_resplit_output();
}

/// Parameters, an encrypted secret, the text of a plan and random bytes determine the buffer of mnemonics and the answer of
/// `shamir_create_from_encrypted`.
pub fn one_backup_from_encrypted()
    ensures { (parameters : Parameters) (encrypted random plan old new other : List ℕ)
        (answer another : Answer)
        → GivesFromEncrypted parameters encrypted random plan old new answer
        → GivesFromEncrypted parameters encrypted random plan old other another
        → (new ≡ other) × (answer ≡ another) }
{
    one_plan_reading();
    one_output_from_encrypted();
}

/// A split anew is a composition: what `shamir_resplit` gives of lines is what `shamir_create_from_encrypted` gives of the encrypted
/// secret that `shamir_encrypted` gives of them, with its parameters. If there is none, the split is refused for the same cause.
pub fn resplits_are_compositions()
    ensures outputs { (threshold : ℕ) (groups : List Members) (random : List ℕ) (input : Input)
        (encrypted : Params × List ℕ) (text : List ℕ) (answer : Result (Unit {0}) Fault)
        → IsEncryptedIn input (Ok encrypted)
        → IsResplitOutput threshold groups random input text answer
        ↔ IsOutputFromEncrypted threshold groups random encrypted text answer }
    ensures refusals { (threshold : ℕ) (groups : List Members) (random : List ℕ) (input : Input)
        (fault : Fault) (text : List ℕ) (answer : Result (Unit {0}) Fault)
        → IsEncryptedIn input (Err fault)
        → IsResplitOutput threshold groups random input text answer
        → (text ≡ []) × (answer ≡ Err fault) }
    ensures calls { (lines : List ℕ) (before after : Parameters) (buffer filled : List ℕ) (n : ℕ)
        (plan random old new : List ℕ) (answer : Answer)
        → GivesEncrypted lines before after buffer filled (done n)
        → GivesSplit (λ threshold groups. IsResplitOutput threshold groups random (whole lines))
        plan old new answer
        ↔ GivesFromEncrypted after (take n filled) random plan old new answer }
{
    resplits_split_encrypted_secrets();
    one_first_quorum();
    one_lack();
    accepted_inputs_are_share_sets();
    every_quorum_has_an_outcome();
    outcomes_in_range();
    encryption_keeps_length_and_bytes();
}

/// Lines determine the buffer and the answer of `shamir_status`.
pub fn one_status()
    ensures { (lines old new other : List ℕ) (answer another : Answer)
        → GivesStatus (IsStatusOutput (whole lines)) old new answer
        → GivesStatus (IsStatusOutput (whole lines)) old other another
        → (new ≡ other) × (answer ≡ another) }
{}

/// Lines and a mnemonic determine the judgement, the buffer of the text and the answer of `shamir_judge`, and there are such ones.
pub fn one_judgement()
    ensures once { (lines line : List ℕ) (judgement first second : Judgement) (old new other : List ℕ)
        (answer another : Answer) → GivesJudgement lines line judgement first old new answer
        → GivesJudgement lines line judgement second old other another
        → (first ≡ second) × (new ≡ other) × (answer ≡ another) }
    ensures exists { (lines line : List ℕ) (judgement : Judgement) (old : List ℕ)
        → (after : Judgement) × (new : List ℕ) × (answer : Answer)
        × GivesJudgement lines line judgement after old new answer }
{}

/// A line determines the buffer of mnemonics and the answer of `shamir_repair`.
pub fn one_repair()
    ensures { (line old new other : List ℕ) (answer another : Answer)
        → GivesRepaired line old new answer → GivesRepaired line old other another
        → (new ≡ other) × (answer ≡ another) }
{
    one_answer();
    one_printed_form();
}

/// If lines give a set with shares, `shamir_quorums` answers how many quorums the set has: the length of the list of all of
/// them, each once, or 2^64 - 1 if it is longer.
pub fn all_quorums_are_counted()
    ensures { (set : List ShareFields) (quorums : List Names)
        → IsShareSet set → set ≢ [] → AreAllQuorumsAfter set None quorums
        → counted_answer (Ok set) ≡ number (min (length quorums) (2 ^ 64 - 1)) }
{
    quorums_are_counted();
}

/// A maximum exponent of 15 or more refuses nothing: a recovery and a drill then give what they give without a maximum.
pub fn a_most_of_15_refuses_nothing()
    ensures recovers { (most : ℕ) (passphrase lines digits old new : List ℕ) (answer : Answer) → 15 ≤ most
        → GivesExpectedSecret (λ noted. GivesUpTo most passphrase lines
        (GivesSecret (IsRecoverOutput Digits noted passphrase (whole lines)) old) old) digits old new answer
        → GivesExpectedSecret (λ noted. GivesSecret (IsRecoverOutput Digits noted passphrase (whole lines)) old)
        digits old new answer }
    ensures drills { (most : ℕ) (passphrase lines cursor : List ℕ) (limit number : ℕ)
        (digits old new : List ℕ) (answer : Answer) → 15 ≤ most
        → GivesDrill (λ form names. GivesUpTo most passphrase lines
        (GivesListing (λ n. IsDrillOutput form passphrase names n (whole lines)) limit old) old)
        cursor limit number digits old new answer
        → GivesDrill (λ form names. GivesListing (λ n. IsDrillOutput form passphrase names n (whole lines)) limit old)
        cursor limit number digits old new answer }
{
    one_checked_set();
    shares_have_the_exponent();
}
