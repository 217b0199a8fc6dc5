//! What `resplit` writes, and what is written of an encrypted secret: facts about the definitions. Each is the contract of a
//! function that does nothing.
ghost use Rattle.std.specs.Prelude.{◌≡◌, ◌≤◌, ◌⊎◌, ℕ, List, All, Result, Ok, length};
ghost use Rattle.s39_kdf.specs.declared.params.Params.{Params};
ghost use Rattle.s39_kdf.specs.Bytes.{AreBytes};
ghost use Rattle.s39_kdf.specs.Cipher.{IsEncryption};
ghost use Rattle.s39_kdf.specs.Limits.{IsPrintable};
ghost use Rattle.s39_words.specs.declared.ShareFields.{ShareFields};
ghost use Rattle.s39_set.specs.declared.SetLack.{SetLack};
ghost use Rattle.s39_set.specs.Names.{Names};
ghost use Rattle.s39_set.specs.Quorums.{IsLeastQuorum};
ghost use Rattle.s39_backup.specs.declared.plan.Members.{Members};
ghost use Rattle.s39_backup.specs.declared.options.Options.{Options};
ghost use Rattle.s39_backup.specs.Plan.{IsPlan};
ghost use Rattle.s39_backup.specs.Created.{Asked, asked_for};
ghost use Rattle.s39_backup.specs.Outcome.{IsOutcome};
ghost use Rattle.s39_backup.specs.Resplit.{options_of};
ghost use Rattle.s39_input.specs.declared.fault.Fault.{Fault};
ghost use Rattle.s39_input.specs.declared.fault.Refusal.{Refusal};
ghost use Rattle.s39_input.specs.declared.fault.Refusal.TheVariants.{Lack, NotExtendable, RandomLength, SameIdentifier};
ghost use Rattle.s39_input.specs.Input.{Input, whole};
ghost use Rattle.s39_input.specs.Accepted.{IsReadAs};
ghost use Rattle.s39_input.specs.Create.{IsCreateOutput};
ghost use Rattle.s39_creating.specs.Lengths.{longest_backup};
ghost use Rattle.s39_creating.specs.Resplit.{Hinders, IsOutputFromEncrypted, IsResplitOutput, ResplitsCreated};

use crate::length_laws::backups_are_short;
use s39_backup::laws::{
    created_shares_are_shares, every_quorum_has_an_outcome, every_quorum_recovers,
};
use s39_backup::resplit_laws::{
    encrypted_secrets_are_split_as_created, one_creation_from_encrypted, one_resplit,
    resplits_are_created_backups,
};
use s39_input::laws::{
    accepted_inputs_are_share_sets, every_input_is_read, mnemonics_are_read_as_their_shares,
    one_set,
};
use s39_kdf::laws::{encryption_keeps_length_and_bytes, one_encryption};
use s39_set::laws::quorums_are_exact;
use s39_words::laws::{every_share_has_a_printed_form, one_printed_form};

/// An input has exactly one output of `resplit` for a plan and random bytes: one text, and one answer.
pub fn one_resplit_output()
    ensures once { (group_threshold : ℕ) (groups : List Members) (random : List ℕ)
        (input : Input) (text other : List ℕ) (answer another : Result (Unit {0}) Fault)
        → IsResplitOutput group_threshold groups random input text answer
        → IsResplitOutput group_threshold groups random input other another
        → (text ≡ other) × (answer ≡ another) }
    ensures exists { (group_threshold : ℕ) (groups : List Members) (random : List ℕ)
        (input : Input) → IsPlan group_threshold groups → AreBytes random
        → (text : List ℕ) × (answer : Result (Unit {0}) Fault)
        × IsResplitOutput group_threshold groups random input text answer }
{
    one_set();
    every_input_is_read();
    accepted_inputs_are_share_sets();
    one_resplit();
    resplits_are_created_backups();
    quorums_are_exact();
    every_quorum_has_an_outcome();
    encryption_keeps_length_and_bytes();
    created_shares_are_shares();
    one_printed_form();
    every_share_has_a_printed_form();
}

/// With every printable passphrase, `resplit` writes what `create` writes by this plan, for these random bytes, from the secret that
/// the least quorum of the lines recovers with it, with the exponent and the flag of their shares.
pub fn resplit_writes_what_create_writes()
    ensures { (group_threshold : ℕ) (groups : List Members) (random : List ℕ) (input : Input)
        (text : List ℕ) (set : List ShareFields) (names : Names) (passphrase secret : List ℕ)
        → IsResplitOutput group_threshold groups random input text (Ok tt)
        → IsReadAs input (Ok set) → IsLeastQuorum set names
        → All IsPrintable passphrase → IsOutcome set names passphrase (Ok secret)
        → (options : Options)
        × All (λ share. (share.extendable ≡ options.extendable)
        × (share.exponent ≡ options.exponent)) set
        × IsCreateOutput (asked_for secret passphrase group_threshold groups options)
        (whole random) text (Ok tt) }
{
    one_set();
    accepted_inputs_are_share_sets();
    resplits_are_created_backups();
}

/// For mnemonics of a created backup, an output of `resplit` is what `create` writes by the plan, for the random bytes, from
/// the secret of that backup, with its passphrase and options. Otherwise it says that the mnemonics have no quorum, that the
/// backup isn't extendable, how many random bytes are needed, or that these give the identifier of that backup.
pub fn created_backups_are_split_anew()
    ensures { (group_threshold : ℕ) (groups : List Members) (random : List ℕ)
        (input : Input) (text : List ℕ) (answer : Result (Unit {0}) Fault)
        → IsResplitOutput group_threshold groups random input text answer
        → ResplitsCreated group_threshold groups random input text answer }
{
    one_set();
    accepted_inputs_are_share_sets();
    mnemonics_are_read_as_their_shares();
    every_quorum_recovers();
    encryption_keeps_length_and_bytes();
    resplits_are_created_backups();
}

/// Nothing else is a reason to write nothing then: no other refusal hinders a split anew.
pub fn only_these_hinder_a_split()
    ensures { (set : List ShareFields) (asked : Asked) (random : List ℕ) (refusal : Refusal)
        → Hinders set asked random refusal
        → ((lack : SetLack) × (refusal ≡ Lack lack)) ⊎ ((refusal ≡ NotExtendable)
        ⊎ (((needed : ℕ) × (refusal ≡ RandomLength needed)) ⊎ (refusal ≡ SameIdentifier))) }
{}

/// The mnemonics that `resplit` writes take at most 253,440 bytes, including the line feeds.
pub fn resplits_are_short()
    ensures { (group_threshold : ℕ) (groups : List Members) (random : List ℕ) (input : Input)
        (text : List ℕ) → IsResplitOutput group_threshold groups random input text (Ok tt)
        → length text ≤ longest_backup }
{
    accepted_inputs_are_share_sets();
    every_quorum_has_an_outcome();
    resplits_are_created_backups();
    backups_are_short();
}

/// An encrypted secret has exactly one output for a plan and random bytes: one text, and one answer.
pub fn one_output_from_encrypted()
    ensures once { (group_threshold : ℕ) (groups : List Members) (random : List ℕ)
        (encrypted : Params × List ℕ) (text other : List ℕ) (answer another : Result (Unit {0}) Fault)
        → IsOutputFromEncrypted group_threshold groups random encrypted text answer
        → IsOutputFromEncrypted group_threshold groups random encrypted other another
        → (text ≡ other) × (answer ≡ another) }
    ensures exists { (group_threshold : ℕ) (groups : List Members) (random : List ℕ)
        (encrypted : Params × List ℕ) → IsPlan group_threshold groups
        → AreBytes encrypted.1 → AreBytes random
        → (text : List ℕ) × (answer : Result (Unit {0}) Fault)
        × IsOutputFromEncrypted group_threshold groups random encrypted text answer }
{
    one_creation_from_encrypted();
    encrypted_secrets_are_split_as_created();
    one_encryption();
    encryption_keeps_length_and_bytes();
    created_shares_are_shares();
    one_printed_form();
    every_share_has_a_printed_form();
}

/// What is written of an encrypted secret is what `create` writes by this plan, for these random bytes, from the secret that a
/// printable passphrase decrypts, with the exponent and the flag of the parameters.
pub fn encrypted_secrets_give_what_create_writes()
    ensures { (group_threshold : ℕ) (groups : List Members) (random : List ℕ)
        (encrypted : Params × List ℕ) (text passphrase secret : List ℕ)
        → IsOutputFromEncrypted group_threshold groups random encrypted text (Ok tt)
        → All IsPrintable passphrase → IsEncryption secret passphrase encrypted.0 encrypted.1
        → IsCreateOutput
        (asked_for secret passphrase group_threshold groups (options_of encrypted.0))
        (whole random) text (Ok tt) }
{
    encrypted_secrets_are_split_as_created();
    encryption_keeps_length_and_bytes();
}

/// The mnemonics that are written of an encrypted secret take at most 253,440 bytes, including the line feeds.
pub fn backups_from_encrypted_are_short()
    ensures { (group_threshold : ℕ) (groups : List Members) (random : List ℕ)
        (encrypted : Params × List ℕ) (text : List ℕ)
        → IsOutputFromEncrypted group_threshold groups random encrypted text (Ok tt)
        → length text ≤ longest_backup }
{
    one_encryption();
    encrypted_secrets_give_what_create_writes();
    backups_are_short();
}
