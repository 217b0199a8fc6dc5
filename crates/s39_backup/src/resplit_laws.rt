//! Facts about backups whose encrypted secret is split. Each is the contract of a function that does nothing.
ghost use Rattle.std.specs.Prelude.{◌≡◌, ◌≢◌, ◌↔◌, ℕ, List, length, All, Contains, Result, Ok, Err};
ghost use Rattle.s39_kdf.specs.declared.params.Params.{Params};
ghost use Rattle.s39_kdf.specs.Bytes.{AreBytes};
ghost use Rattle.s39_kdf.specs.Cipher.{IsEncryption};
ghost use Rattle.s39_kdf.specs.Limits.{IsPrintable, IsSecretLength};
ghost use Rattle.s39_words.specs.declared.ShareFields.{ShareFields};
ghost use Rattle.s39_set.specs.Names.{Names};
ghost use Rattle.s39_set.specs.ShareSet.{IsShareSet};
ghost use Rattle.s39_set.specs.Quorums.{IsQuorum, IsLeastQuorum};
ghost use Rattle.s39_backup.specs.declared.plan.Members.{Members};
ghost use Rattle.s39_backup.specs.declared.options.Options.{Options};
ghost use Rattle.s39_backup.specs.declared.resplit_error.ResplitError.{ResplitError};
ghost use Rattle.s39_backup.specs.Combination.{combination_of};
ghost use Rattle.s39_backup.specs.Plan.{IsPlan};
ghost use Rattle.s39_backup.specs.Created.{asked_for, random_needed, IsCreatedFrom, IsCreation, AreOfBackup};
ghost use Rattle.s39_backup.specs.Outcome.{AreParams, IsOutcome};
ghost use Rattle.s39_backup.specs.Resplit.{options_of, IsCreatedFromEncrypted, IsCreationFromEncrypted, IsResplit};

use crate::laws::{
    every_backup_can_be_created, every_quorum_has_an_outcome, every_quorum_recovers,
    one_created_backup, outcomes_in_range,
};
use s39_kdf::laws::{encryption_keeps_length_and_bytes, one_encryption};
use s39_set::laws::{one_first_quorum, one_lack, quorum_or_lack, quorums_are_exact};

/// If an encrypted secret is split, the shares are the backup that is created from the secret that any passphrase decrypts, by the
/// given plan, the flag and the exponent of the parameters, and the given random bytes, which are as many as it takes. So they
/// are of a backup of this secret, and each of their quorums recovers it with this passphrase.
pub fn encrypted_secrets_are_split_as_created()
    ensures created { (old : Params) (group_threshold : ℕ) (groups : List Members)
        (random encrypted : List ℕ) (shares : List ShareFields) (passphrase secret : List ℕ)
        → IsCreatedFromEncrypted old group_threshold groups random encrypted shares
        → IsEncryption secret passphrase old encrypted
        → (length random ≡ random_needed group_threshold groups (length secret))
        × IsCreatedFrom (asked_for secret passphrase group_threshold groups (options_of old))
        random shares }
    ensures of_backup { (old : Params) (group_threshold : ℕ) (groups : List Members)
        (random encrypted : List ℕ) (shares : List ShareFields) (passphrase secret : List ℕ)
        → IsPlan group_threshold groups
        → IsCreatedFromEncrypted old group_threshold groups random encrypted shares
        → IsEncryption secret passphrase old encrypted
        → AreOfBackup shares passphrase secret }
    ensures recovers { (old : Params) (group_threshold : ℕ) (groups : List Members)
        (random encrypted : List ℕ) (shares : List ShareFields) (passphrase secret : List ℕ)
        (new : List ShareFields) (quorum : Names)
        → IsPlan group_threshold groups
        → IsCreatedFromEncrypted old group_threshold groups random encrypted shares
        → IsEncryption secret passphrase old encrypted
        → IsShareSet new → All (Contains shares) new → IsQuorum new quorum
        → IsOutcome new quorum passphrase (Ok secret) }
{
    encryption_keeps_length_and_bytes();
    every_quorum_recovers();
}

/// An encrypted secret as long as a secret, a plan and random bytes give exactly one result: the shares of a new backup, or the
/// first cause for which there are none.
pub fn one_creation_from_encrypted()
    ensures exists { (old : Params) (group_threshold : ℕ) (groups : List Members)
        (random encrypted : List ℕ)
        → IsPlan group_threshold groups → IsSecretLength (length encrypted)
        → AreBytes encrypted → AreBytes random
        → (result : Result (List ShareFields) ResplitError)
        × IsCreationFromEncrypted old group_threshold groups random encrypted result }
    ensures once { (old : Params) (group_threshold : ℕ) (groups : List Members)
        (random encrypted : List ℕ) (result other : Result (List ShareFields) ResplitError)
        → IsSecretLength (length encrypted)
        → IsCreationFromEncrypted old group_threshold groups random encrypted result
        → IsCreationFromEncrypted old group_threshold groups random encrypted other
        → result ≡ other }
{
    one_encryption();
    encryption_keeps_length_and_bytes();
    one_created_backup();
    every_backup_can_be_created();
}

/// A set gives what the encrypted secret to which its least quorum combines gives, with the parameters of its shares.
pub fn resplits_split_encrypted_secrets()
    ensures { (set : List ShareFields) (group_threshold : ℕ) (groups : List Members)
        (random : List ℕ) (names : Names) (old : Params) (encrypted : List ℕ)
        (result : Result (List ShareFields) ResplitError)
        → IsLeastQuorum set names → AreParams set old → combination_of set names ≡ Ok encrypted
        → IsResplit set group_threshold groups random result
        ↔ IsCreationFromEncrypted old group_threshold groups random encrypted result }
{
    one_first_quorum();
    one_lack();
}

/// With every passphrase, the least quorum of a set that is split anew recovers a secret. The new shares are the backup
/// that is created from this secret with this passphrase, by the given plan, the flag and the exponent of the shares at
/// hand, and the given random bytes, which are as many as it takes. If the passphrase is printable, a creation gives these
/// shares. So they are of a backup of this secret, and each of their quorums recovers it with this passphrase. If the
/// shares at hand are of a created backup, the new ones are of a backup of its secret.
pub fn resplits_are_created_backups()
    ensures recovered { (set : List ShareFields) (group_threshold : ℕ) (groups : List Members)
        (random : List ℕ) (shares : List ShareFields) (names : Names) (passphrase : List ℕ)
        → IsShareSet set → IsResplit set group_threshold groups random (Ok shares)
        → IsLeastQuorum set names
        → (secret : List ℕ) × IsOutcome set names passphrase (Ok secret) }
    ensures created { (set : List ShareFields) (group_threshold : ℕ) (groups : List Members)
        (random : List ℕ) (shares : List ShareFields)
        (names : Names) (passphrase secret : List ℕ)
        → IsShareSet set → IsResplit set group_threshold groups random (Ok shares)
        → IsLeastQuorum set names → IsOutcome set names passphrase (Ok secret)
        → (options : Options)
        × All (λ share. (share.extendable ≡ options.extendable)
        × (share.exponent ≡ options.exponent)) set
        × IsSecretLength (length secret) × AreBytes secret
        × (length random ≡ random_needed group_threshold groups (length secret))
        × IsCreatedFrom (asked_for secret passphrase group_threshold groups options)
        random shares }
    ensures creation { (set : List ShareFields) (group_threshold : ℕ) (groups : List Members)
        (random : List ℕ) (shares : List ShareFields)
        (names : Names) (passphrase secret : List ℕ)
        → IsShareSet set → IsResplit set group_threshold groups random (Ok shares)
        → IsLeastQuorum set names → IsOutcome set names passphrase (Ok secret)
        → All IsPrintable passphrase
        → (options : Options)
        × All (λ share. (share.extendable ≡ options.extendable)
        × (share.exponent ≡ options.exponent)) set
        × IsCreation (asked_for secret passphrase group_threshold groups options)
        random (Ok shares) }
    ensures of_backup { (set : List ShareFields) (group_threshold : ℕ) (groups : List Members)
        (random : List ℕ) (shares : List ShareFields)
        (names : Names) (passphrase secret : List ℕ)
        → IsShareSet set → IsPlan group_threshold groups
        → IsResplit set group_threshold groups random (Ok shares)
        → IsLeastQuorum set names → IsOutcome set names passphrase (Ok secret)
        → AreOfBackup shares passphrase secret }
    ensures recovers { (set : List ShareFields) (group_threshold : ℕ) (groups : List Members)
        (random : List ℕ) (shares : List ShareFields)
        (names : Names) (passphrase secret : List ℕ) (new : List ShareFields) (quorum : Names)
        → IsShareSet set → IsPlan group_threshold groups
        → IsResplit set group_threshold groups random (Ok shares)
        → IsLeastQuorum set names → IsOutcome set names passphrase (Ok secret)
        → IsShareSet new → All (Contains shares) new → IsQuorum new quorum
        → IsOutcome new quorum passphrase (Ok secret) }
    ensures of_created { (set : List ShareFields) (group_threshold : ℕ) (groups : List Members)
        (random : List ℕ) (shares : List ShareFields) (passphrase secret : List ℕ)
        → IsShareSet set → IsPlan group_threshold groups
        → IsResplit set group_threshold groups random (Ok shares)
        → AreOfBackup set passphrase secret → AreOfBackup shares passphrase secret }
{
    every_quorum_has_an_outcome();
    quorums_are_exact();
    outcomes_in_range();
    one_first_quorum();
    encryption_keeps_length_and_bytes();
    every_quorum_recovers();
}

/// If a set is split anew, each new share has another identifier than each share of the set.
pub fn new_backups_have_other_identifiers()
    ensures { (set : List ShareFields) (group_threshold : ℕ) (groups : List Members)
        (random : List ℕ) (shares : List ShareFields) (old new : ShareFields)
        → IsShareSet set → IsResplit set group_threshold groups random (Ok shares)
        → Contains set old → Contains shares new → old.id ≢ new.id }
{}

/// A share set, a plan and random bytes give exactly one result: the shares of a new backup, or the first cause for which
/// there are none.
pub fn one_resplit()
    ensures exists { (set : List ShareFields) (group_threshold : ℕ) (groups : List Members)
        (random : List ℕ)
        → IsShareSet set → IsPlan group_threshold groups → AreBytes random
        → (result : Result (List ShareFields) ResplitError)
        × IsResplit set group_threshold groups random result }
    ensures once { (set : List ShareFields) (group_threshold : ℕ) (groups : List Members)
        (random : List ℕ) (result other : Result (List ShareFields) ResplitError)
        → IsShareSet set
        → IsResplit set group_threshold groups random result
        → IsResplit set group_threshold groups random other
        → result ≡ other }
{
    quorum_or_lack();
    quorums_are_exact();
    one_lack();
    one_first_quorum();
    one_encryption();
    encryption_keeps_length_and_bytes();
    outcomes_in_range();
    one_created_backup();
    every_backup_can_be_created();
    every_quorum_has_an_outcome();
}
