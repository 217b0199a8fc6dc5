//! Theorems about secrecy. Each is the contract of a function that does nothing.
ghost use Rattle.std.specs.Prelude.{◌≡◌, ℕ, ◌+◌, ◌<◌, ◌≤◌, List, [], ◌∷◌, None, Ok, length, map, replicate, All};
ghost use Rattle.s39_kdf.specs.Bytes.{AreBytes};
ghost use Rattle.s39_kdf.specs.Limits.{IsSecretLength};
ghost use Rattle.s39_kdf.specs.Cipher.{IsEncryption};
ghost use Rattle.s39_kdf.specs.declared.params.Params.{Params};
ghost use Rattle.s39_split.specs.Shares.{AreDistinct};
ghost use Rattle.s39_split.specs.Sharing.{most_shares, secret_place, digest_length, random_needed, IsSplit};
ghost use Rattle.s39_split.specs.Recovery.{Combines, AreSharesOf};
ghost use Rattle.s39_words.specs.declared.share.ShareFields.{ShareFields};
ghost use Rattle.s39_set.specs.Names.{Names, IsAscending};
ghost use Rattle.s39_set.specs.ShareSet.{IsShareSet, name_of};
ghost use Rattle.s39_set.specs.Quorums.{IsLeastQuorum};
ghost use Rattle.s39_backup.specs.Plan.{IsPlan};
ghost use Rattle.s39_backup.specs.Created.{Asked, asked_for, needed_by, IsCreatedFrom};
ghost use Rattle.s39_backup.specs.Outcome.{AreParams, IsOutcome};
ghost use Rattle.s39_backup.specs.Resplit.{IsResplit};
ghost use Rattle.s39_backup.specs.declared.options.Options.{Options};
ghost use Rattle.s39_backup.specs.declared.plan.Members.{Members};
ghost use Rattle.s39_backup.specs.TwoShort.{IsTwoShort};
ghost use Rattle.s39_split.specs.Fitting.{Fits};
ghost use Rattle.s39_backup.specs.Correspondence.{Correspond};
ghost use Rattle.s39_backup.specs.InCommon.{for_secret, HaveTheShare};
ghost use Rattle.s39_secrecy.specs.Secrecy.{CanBeAsked, AreTwoShort, AreRandomBytes, TellNothing, Give, CorrespondOneToOne, AreDifferent, AreAll, member_points};
ghost use Rattle.s39_secrecy.specs.Rows.{group_of, one_group, home_and_two, family_and_two, four_groups};

use s39_backup::resplit_laws::resplits_are_created_backups;

/// Shares of one level that are two fewer than its threshold fit every secret of their length. For each secret and each
/// key of its digest, exactly one list of random bytes that begins with this key gives these shares.
pub fn known_shares_fit_every_secret()
    ensures { (threshold : ℕ) (secret key : List ℕ) (known : List (ℕ × List ℕ))
        → 2 ≤ threshold → threshold ≤ most_shares
        → AreBytes secret → AreBytes key → length key + digest_length ≡ length secret
        → length known + 2 ≡ threshold → AreDistinct known
        → All (λ share. share.0 < most_shares) known
        → All (λ share. length share.1 ≡ length secret) known
        → All (λ share. AreBytes share.1) known
        → (random : List ℕ) × Fits threshold secret key known random
        × (length random ≡ random_needed threshold (length secret)) × AreBytes random
        × ((other : List ℕ) → Fits threshold secret key known other → other ≡ random) }
{}

/// The random bytes of a backup correspond to exactly one list for another secret, and this list has as many bytes as
/// the backup of that secret takes. The list in turn corresponds to these random bytes.
pub fn one_correspondent()
    ensures exists { (asked : Asked) (other : List ℕ) (names : Names) (random : List ℕ)
        → AreTwoShort asked other names → AreRandomBytes asked random
        → (fitted : List ℕ) × Correspond names asked other random fitted
        × AreRandomBytes (for_secret other asked) fitted }
    ensures once { (asked : Asked) (other : List ℕ) (names : Names)
        (random fitted also : List ℕ)
        → AreTwoShort asked other names → AreRandomBytes asked random
        → Correspond names asked other random fitted
        → Correspond names asked other random also → also ≡ fitted }
    ensures back { (asked : Asked) (other : List ℕ) (names : Names) (random fitted : List ℕ)
        → AreTwoShort asked other names → AreRandomBytes asked random
        → Correspond names asked other random fitted
        → Correspond names (for_secret other asked) asked.secret fitted random }
{}

/// Backups from random bytes that correspond have the same shares with the names. If there is one backup, there is the
/// other.
pub fn corresponding_backups_share()
    ensures share { (asked : Asked) (other : List ℕ) (names : Names) (random fitted : List ℕ)
        (shares others : List ShareFields)
        → AreTwoShort asked other names → Correspond names asked other random fitted
        → IsCreatedFrom asked random shares
        → IsCreatedFrom (for_secret other asked) fitted others
        → All (HaveTheShare shares others) names }
    ensures exists { (asked : Asked) (other : List ℕ) (names : Names) (random fitted : List ℕ)
        (shares : List ShareFields)
        → IsTwoShort asked.group_threshold asked.groups names
        → Correspond names asked other random fitted → IsCreatedFrom asked random shares
        → (others : List ShareFields) × IsCreatedFrom (for_secret other asked) fitted others
        × All (HaveTheShare shares others) names }
{}

/// Shares that are two short fit every secret of the same length: each such secret has a backup with these very shares,
/// by the same plan, passphrase and options.
pub fn two_short_fit_every_secret()
    ensures { (asked : Asked) (other : List ℕ) (names : Names) (random : List ℕ)
        (shares : List ShareFields)
        → AreTwoShort asked other names → AreRandomBytes asked random
        → IsCreatedFrom asked random shares
        → (fitted : List ℕ) × AreRandomBytes (for_secret other asked) fitted
        × ((others : List ShareFields) × IsCreatedFrom (for_secret other asked) fitted others
        × All (HaveTheShare shares others) names) }
{}

/// If an encrypted secret is split anew, shares of the new backup that are two short of the new plan fit every secret that
/// is as long as the one that the old shares recover: each has a backup with these very shares, by the same plan and
/// passphrase.
pub fn two_short_of_a_resplit_fit_every_secret()
    ensures { (set : List ShareFields) (group_threshold : ℕ) (groups : List Members)
        (random : List ℕ) (shares : List ShareFields)
        (least names : Names) (passphrase secret other : List ℕ)
        → IsShareSet set → IsPlan group_threshold groups → AreBytes random
        → IsResplit set group_threshold groups random (Ok shares)
        → IsLeastQuorum set least → IsOutcome set least passphrase (Ok secret)
        → length other ≡ length secret → AreBytes other
        → IsAscending names → IsTwoShort group_threshold groups names
        → (options : Options) × ((fitted : List ℕ)
        × AreRandomBytes (asked_for other passphrase group_threshold groups options) fitted
        × ((others : List ShareFields)
        × IsCreatedFrom (asked_for other passphrase group_threshold groups options) fitted others
        × All (HaveTheShare shares others) names)) }
{
    resplits_are_created_backups();
    two_short_fit_every_secret();
}

/// Shares that are two short tell nothing of which secret the backup has: the random bytes for one secret correspond one
/// to one to those for any other of its length, and with random bytes that correspond, both backups have these shares.
pub fn two_short_tell_nothing()
    ensures { (asked : Asked) (other : List ℕ) (names : Names) → AreTwoShort asked other names
        → TellNothing asked other names }
{}

/// For any shares that are two short, the random bytes that give them for one secret correspond one to one to those that
/// give them for any other of its length. So if all of them are listed for either secret, each once, the lists are
/// equally long. All that give some shares can be listed. The first clause follows from two functions that undo each
/// other and keep the shares, whatever these functions are.
pub fn as_many_random_bytes()
    ensures one_to_one { (asked : Asked) (other : List ℕ) (some : List ShareFields)
        → AreTwoShort asked other (map name_of some)
        → CorrespondOneToOne (Give asked some) (Give (for_secret other asked) some) }
    ensures as_many { (asked : Asked) (other : List ℕ) (some : List ShareFields)
        (lists others : List (List ℕ))
        → AreTwoShort asked other (map name_of some)
        → AreAll (Give asked some) lists → AreAll (Give (for_secret other asked) some) others
        → length lists ≡ length others }
    ensures no_more { (asked : Asked) (other : List ℕ) (some : List ShareFields)
        (lists : List (List ℕ))
        → AreTwoShort asked other (map name_of some) → AreDifferent (Give asked some) lists
        → (others : List (List ℕ)) × AreDifferent (Give (for_secret other asked) some) others
        × (length others ≡ length lists) }
    ensures listed { (asked : Asked) (some : List ShareFields) → CanBeAsked asked
        → (lists : List (List ℕ)) × AreAll (Give asked some) lists }
    ensures from_two_functions { (asked : Asked) (other : List ℕ) (some : List ShareFields)
        → CanBeAsked asked → TellNothing asked other (map name_of some)
        → CorrespondOneToOne (Give asked some) (Give (for_secret other asked) some) }
{}

/// The theorems ask only for a plan, for two secrets of one valid length, and for names in order that are two short. Of
/// random bytes they ask only that they are bytes, as many as the backup takes. The empty list of names is two short of
/// every plan.
pub fn nothing_else_is_asked()
    ensures settings { (asked : Asked) (other : List ℕ) (names : Names)
        → IsPlan asked.group_threshold asked.groups
        → IsSecretLength (length asked.secret) → AreBytes asked.secret
        → length other ≡ length asked.secret → AreBytes other
        → IsAscending names → IsTwoShort asked.group_threshold asked.groups names
        → AreTwoShort asked other names }
    ensures random { (asked : Asked) (random : List ℕ)
        → AreBytes random → length random ≡ needed_by asked → AreRandomBytes asked random }
    ensures no_names { (group_threshold : ℕ) (groups : List Members)
        → IsTwoShort group_threshold groups [] }
{}

/// Shares that are one short can rule out a secret. Shares of one level, one fewer than its threshold, do so if they and
/// the secret at its place don't combine, as the digest doesn't match: no random bytes give these shares to a split of
/// that secret. So do shares of a backup by a plan with one group, one fewer than it needs: they rule out a secret of the
/// backup if they and its encryption don't combine.
pub fn one_short_can_rule_out()
    ensures of_a_level { (threshold count : ℕ) (secret random : List ℕ) (shares : List (List ℕ))
        (known : List (ℕ × List ℕ))
        → AreBytes secret → All (λ share. AreBytes share.1) known
        → length known + 1 ≡ threshold
        → Combines threshold ((secret_place, secret) ∷ known) None
        → IsSplit threshold count secret random shares → ¬ AreSharesOf shares known }
    ensures of_one_group { (asked : Asked) (members : Members) (other encrypted : List ℕ)
        (params : Params) (some : List ShareFields)
        → asked.group_threshold ≡ 1 → asked.groups ≡ members ∷ []
        → IsAscending (map name_of some) → length some + 1 ≡ members.threshold
        → AreBytes other → All (λ share. AreBytes share.value.items) some
        → AreParams some params → IsEncryption other asked.passphrase params encrypted
        → Combines members.threshold ((secret_place, encrypted) ∷ member_points some) None
        → (random : List ℕ) → ¬ Give (for_secret other asked) some random }
{}

/// Worked examples of names that are two short of a plan, and of names that aren't. A name that the plan doesn't have is
/// never two short. The last two clauses show what meets the conditions of the theorems.
pub fn rows()
    ensures one_of_one_group { IsTwoShort 1 one_group ((0, 4) ∷ []) }
    ensures none_of_one_group { IsTwoShort 1 one_group [] }
    ensures two_of_one_group { ¬ IsTwoShort 1 one_group ((0, 1) ∷ (0, 4) ∷ []) }
    ensures no_name_of_one_group { ¬ IsTwoShort 1 one_group ((0, 5) ∷ []) }
    ensures one_of_two_needed { ¬ IsTwoShort 1 (group_of 2 3 ∷ []) ((0, 0) ∷ []) }
    ensures none_of_home { IsTwoShort 2 home_and_two [] }
    ensures one_of_home { ¬ IsTwoShort 2 home_and_two ((0, 2) ∷ []) }
    ensures one_other { ¬ IsTwoShort 2 home_and_two ((1, 0) ∷ []) }
    ensures none_of_family { IsTwoShort 2 family_and_two [] }
    ensures one_of_family { IsTwoShort 2 family_and_two ((0, 3) ∷ []) }
    ensures two_of_family { ¬ IsTwoShort 2 family_and_two ((0, 1) ∷ (0, 3) ∷ []) }
    ensures one_held { IsTwoShort 3 four_groups ((0, 0) ∷ (1, 2) ∷ []) }
    ensures one_complete { IsTwoShort 3 four_groups ((0, 0) ∷ (0, 1) ∷ (0, 4) ∷ []) }
    ensures two_held { ¬ IsTwoShort 3 four_groups ((0, 0) ∷ (0, 4) ∷ (1, 2) ∷ []) }
    ensures two_complete { ¬ IsTwoShort 3 four_groups ((2, 0) ∷ (3, 0) ∷ []) }
    ensures setting { (options : Options)
        → AreTwoShort (asked_for (replicate 16 0) [] 1 one_group options) (replicate 16 255)
        ((0, 4) ∷ []) }
    ensures random { (options : Options)
        → AreRandomBytes (asked_for (replicate 16 0) [] 1 one_group options) (replicate 30 0) }
{}
