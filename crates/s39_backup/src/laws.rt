//! Facts about the definitions. Each is the contract of a function that does nothing. `resplit_laws` has those about
//! encrypted secrets that are split anew.
ghost use Rattle.std.specs.Prelude.{◌≡◌, ◌≢◌, ℕ, ◌<◌, List, [], length, map, All, Contains, Result, Ok, Err, None, Some, codes, replicate};
ghost use Rattle.std.specs.List.{slice_get};
ghost use Rattle.s39_kdf.specs.Bytes.{AreBytes};
ghost use Rattle.s39_kdf.specs.Limits.{longest_secret, IsSecretLength};
ghost use Rattle.s39_set.specs.Names.{Name, Names, most_groups, most_members};
ghost use Rattle.s39_backup.specs.declared.plan.Members.{Members};
ghost use Rattle.s39_backup.specs.declared.create_error.CreateError.{CreateError};
ghost use Rattle.s39_backup.specs.declared.plan_error.PlanError.{PlanError};
ghost use Rattle.s39_backup.specs.Plan.{IsPlan, IsNameOfPlan, IsPlanReading};
ghost use Rattle.s39_backup.specs.Created.{Asked, IsCreatedFrom, IsCreation, AreOfBackup, identifier_length, needed_by, random_needed, most_random};
ghost use Rattle.s39_words.specs.declared.ShareFields.{ShareFields};
ghost use Rattle.s39_words.specs.Share.{IsShare};
ghost use Rattle.s39_set.specs.ShareSet.{IsShareSet, name_of, refusal_of};
ghost use Rattle.s39_set.specs.Quorums.{IsQuorum, MeetsThresholds};
ghost use Rattle.s39_backup.specs.declared.combination.Mismatch.{Mismatch};
ghost use Rattle.s39_backup.specs.declared.combination.Mismatch.TheVariants.{InGroup};
ghost use Rattle.s39_backup.specs.Combination.{combination_of, GroupsAreCombined, GroupSharesAreCombined};
ghost use Rattle.s39_backup.specs.Outcome.{IsOutcome};
ghost use Rattle.s39_backup.specs.Memo.{most_kept};
ghost use Rattle.s39_backup.specs.Reissue.{AreOfPlan, IsReissue, IsDetermined, IsUndetermined, IsRightFor, PointsAreCompleted, OtherSharesAreCompleted, LeastMembersAreCombined};
ghost use Rattle.s39_backup.specs.LargerPlan.{HaveMoreMembers, ArePartOf};
ghost use Rattle.s39_backup.specs.declared.reissue_error.ReissueError.{ReissueError};
ghost use Rattle.s39_backup.specs.declared.reissue_error.ReissueError.TheVariants.{Undetermined};
ghost use Rattle.s39_backup.specs.declared.reissue_error.TooFew.{TooFew};

use crate::creation::ID_BYTES;
use crate::memo::MAX_KEPT;
use s39_kdf::laws::{
    encryption_keeps_length_and_bytes, encrypts_one_secret, one_encryption,
    passphrases_are_printable_or_not,
};
use s39_set::laws::{quorums_are_exact, shares_that_agree_join};
use s39_split::laws::{
    any_points_complete, any_shares_combine, first_shares, needed_random_bytes, one_split,
    shares_are_points, shares_of_a_split,
};

/// The constants of the code are the numbers of the definitions. A plan of sixteen groups of sixteen members, all of
/// which are needed, takes `most_random` random bytes, and `Plan::random_needed` says that no plan takes more.
pub fn numbers()
    ensures identifier { ID_BYTES ≡ identifier_length }
    ensures kept { MAX_KEPT ≡ most_kept }
    ensures most { random_needed most_groups
        (replicate most_groups (record { threshold = most_members; count = most_members }))
        longest_secret ≡ most_random }
{}

/// A secret, a passphrase, a plan, options and random bytes give at most one backup.
pub fn one_created_backup()
    ensures { (asked : Asked) (random : List ℕ) (shares other : List ShareFields)
        → IsCreatedFrom asked random shares → IsCreatedFrom asked random other
        → shares ≡ other }
{
    needed_random_bytes();
    shares_of_a_split();
    one_split();
    one_encryption();
}

/// There is a backup for each secret of an accepted length, passphrase, plan and options, with exactly as many random
/// bytes as it takes.
pub fn every_backup_can_be_created()
    ensures { (asked : Asked) (random : List ℕ)
        → IsPlan asked.group_threshold asked.groups
        → IsSecretLength (length asked.secret) → AreBytes asked.secret → AreBytes random
        → length random ≡ needed_by asked
        → (shares : List ShareFields) × IsCreatedFrom asked random shares }
{
    shares_of_a_split();
    one_split();
    one_encryption();
    encryption_keeps_length_and_bytes();
}

/// A backup consists of shares: their fields are in range.
pub fn created_shares_are_shares()
    ensures { (asked : Asked) (random : List ℕ) (shares : List ShareFields)
        → IsPlan asked.group_threshold asked.groups
        → IsSecretLength (length asked.secret) → AreBytes asked.secret → AreBytes random
        → IsCreatedFrom asked random shares
        → All IsShare shares }
{
    shares_of_a_split();
    encryption_keeps_length_and_bytes();
}

/// A creation from bytes with a plan has exactly one result: its shares, or the first cause for which it is refused.
pub fn one_creation()
    ensures exists { (asked : Asked) (random : List ℕ)
        → IsPlan asked.group_threshold asked.groups → AreBytes asked.secret → AreBytes random
        → (result : Result (List ShareFields) CreateError)
        × IsCreation asked random result }
    ensures once { (asked : Asked) (random : List ℕ)
        (result other : Result (List ShareFields) CreateError)
        → IsCreation asked random result → IsCreation asked random other
        → result ≡ other }
{
    passphrases_are_printable_or_not();
    one_created_backup();
    every_backup_can_be_created();
}

/// A text has at most one reading: a plan, or the cause for which it is refused.
pub fn one_plan_reading()
    ensures { (text : List ℕ) (reading other : Result (ℕ × List Members) PlanError)
        → IsPlanReading text reading → IsPlanReading text other → reading ≡ other }
{}

/// Every text has a reading: a plan, or a refusal.
pub fn every_text_has_a_plan_reading()
    ensures { (text : List ℕ)
        → (reading : Result (ℕ × List Members) PlanError) × IsPlanReading text reading }
{}

/// What a quorum of a share set combines to is what the standard says: each of its groups has as many shares as its member
/// threshold, which combine to what `combination_of` takes for the group's share and to nothing else; and so do the shares
/// of the groups, which are as many as the group threshold.
pub fn quorums_combine_by_the_standard()
    ensures groups { GroupsAreCombined }
    ensures group_shares { GroupSharesAreCombined }
{
    quorums_are_exact();
}

/// A quorum of a share set has at most one outcome with a passphrase.
pub fn one_outcome()
    ensures { (set : List ShareFields) (names : Names) (passphrase : List ℕ)
        (outcome other : Result (List ℕ) Mismatch)
        → IsShareSet set → IsQuorum set names
        → IsOutcome set names passphrase outcome → IsOutcome set names passphrase other
        → outcome ≡ other }
{
    encrypts_one_secret();
}

/// Every quorum of a share set has an outcome with any passphrase.
pub fn every_quorum_has_an_outcome()
    ensures { (set : List ShareFields) (names : Names) (passphrase : List ℕ)
        → IsShareSet set → IsQuorum set names
        → (outcome : Result (List ℕ) Mismatch) × IsOutcome set names passphrase outcome }
{
    quorums_are_exact();
    one_encryption();
}

/// What a quorum of a share set recovers has the length of a secret, and a mismatch names a group from 0 to 15.
pub fn outcomes_in_range()
    ensures secret { (set : List ShareFields) (names : Names) (passphrase secret : List ℕ)
        → IsShareSet set → IsQuorum set names → IsOutcome set names passphrase (Ok secret)
        → IsSecretLength (length secret) }
    ensures group { (set : List ShareFields) (names : Names) (passphrase : List ℕ) (group : ℕ)
        → IsOutcome set names passphrase (Err (InGroup group)) → group < most_groups }
{
    quorums_are_exact();
    encryption_keeps_length_and_bytes();
}

/// Every quorum of shares of a created backup combines to its encrypted secret.
pub fn every_quorum_combines()
    ensures { (set : List ShareFields) (names : Names) (passphrase secret : List ℕ)
        → IsShareSet set → IsQuorum set names → (backup : AreOfBackup set passphrase secret)
        → combination_of set names ≡ Ok backup.created.encrypted }
{
    quorums_are_exact();
    any_shares_combine();
}

/// Every quorum of shares of a created backup recovers its secret, with the passphrase of the creation.
pub fn every_quorum_recovers()
    ensures { (set : List ShareFields) (names : Names) (passphrase secret : List ℕ)
        → IsShareSet set → IsQuorum set names → AreOfBackup set passphrase secret
        → IsOutcome set names passphrase (Ok secret) }
{
    quorums_are_exact();
    any_shares_combine();
}

/// Shares of a created backup never refuse one another.
pub fn shares_of_a_backup_agree()
    ensures { (set earlier : List ShareFields) (share : ShareFields) (passphrase secret : List ℕ)
        → AreOfBackup set passphrase secret → All (Contains set) earlier → Contains set share
        → refusal_of earlier share ≡ None }
{
    shares_that_agree_join();
    shares_of_a_split();
}

/// All shares of a created backup meet its thresholds.
pub fn whole_backups_meet_the_thresholds()
    ensures { (set : List ShareFields) (passphrase secret : List ℕ)
        → IsShareSet set → (backup : AreOfBackup set passphrase secret)
        → All (Contains set) backup.shares → MeetsThresholds set (map name_of set) }
{}

/// A name of a plan has at most one share, or at most one cause for which its share is missing.
pub fn one_reissue()
    ensures { (set : List ShareFields) (group_threshold : ℕ) (groups : List Members)
        (name : Name) (result other : Result ShareFields ReissueError)
        → IsShareSet set → IsPlan group_threshold groups
        → IsReissue set group_threshold groups name result
        → IsReissue set group_threshold groups name other
        → result ≡ other }
{}

/// Every name of a plan has a share, or a cause for which it is missing.
pub fn every_name_has_a_reissue()
    ensures { (set : List ShareFields) (group_threshold : ℕ) (groups : List Members)
        (name : Name)
        → IsShareSet set → IsPlan group_threshold groups → IsNameOfPlan groups name
        → (result : Result ShareFields ReissueError)
        × IsReissue set group_threshold groups name result }
{}

/// A missing share is computed as the standard says. The points that determine a member complete to what the definition
/// computes, and to nothing else. So do the shares of the other groups, and the least members of each of these combine so.
pub fn reissues_complete_by_the_standard()
    ensures points { PointsAreCompleted }
    ensures group_shares { OtherSharesAreCompleted }
    ensures members { LeastMembersAreCombined }
{}

/// If a name of a plan has a share, the fields of this share are in range, so that it can be printed.
pub fn reissued_shares_are_shares()
    ensures { (set : List ShareFields) (group_threshold : ℕ) (groups : List Members)
        (name : Name) (share : ShareFields)
        → IsShareSet set → IsPlan group_threshold groups → IsNameOfPlan groups name
        → IsReissue set group_threshold groups name (Ok share) → IsShare share }
{}

/// A name of a plan has a share only if the shares at hand determine it. `Undetermined` is the answer only if they
/// don't, and it says what is at hand and what is needed.
pub fn names_are_determined_or_not()
    ensures determined { (set : List ShareFields) (group_threshold : ℕ) (groups : List Members)
        (name : Name) (share : ShareFields)
        → IsShareSet set
        → IsReissue set group_threshold groups name (Ok share)
        → IsDetermined set group_threshold groups name }
    ensures undetermined { (set : List ShareFields) (group_threshold : ℕ) (groups : List Members)
        (name : Name) (few : TooFew)
        → IsShareSet set
        → IsReissue set group_threshold groups name (Err (Undetermined few))
        → IsUndetermined set group_threshold groups name few }
{}

/// Shares of a created backup are of its plan. If they determine the share of a name of this plan, it is the backup's
/// share, and all digests match.
pub fn backups_reissue_their_shares()
    ensures of_plan { (set : List ShareFields) (passphrase secret : List ℕ)
        → IsShareSet set → (backup : AreOfBackup set passphrase secret)
        → AreOfPlan backup.group_threshold backup.groups set }
    ensures right { (set : List ShareFields) (passphrase secret : List ℕ)
        (name : Name) (result : Result ShareFields ReissueError)
        → IsShareSet set → (backup : AreOfBackup set passphrase secret)
        → IsNameOfPlan backup.groups name
        → IsReissue set backup.group_threshold backup.groups name result
        → IsRightFor backup.shares name result }
{
    any_shares_combine();
    any_points_complete();
    shares_are_points();
}

/// Shares of a created backup are of no plan with another group threshold or another number of groups, unless there are
/// none. Such a plan also has the group of each of them with the backup's member threshold and more members than its
/// member index.
pub fn plans_of_a_backup_are_like_its_plan()
    ensures group_threshold { (set : List ShareFields) (passphrase secret : List ℕ)
        (group_threshold : ℕ) (groups : List Members)
        → IsShareSet set → set ≢ [] → (backup : AreOfBackup set passphrase secret)
        → AreOfPlan group_threshold groups set → group_threshold ≡ backup.group_threshold }
    ensures count { (set : List ShareFields) (passphrase secret : List ℕ)
        (group_threshold : ℕ) (groups : List Members)
        → IsShareSet set → set ≢ [] → (backup : AreOfBackup set passphrase secret)
        → AreOfPlan group_threshold groups set → length groups ≡ length backup.groups }
    ensures members { (set : List ShareFields) (passphrase secret : List ℕ)
        (group_threshold : ℕ) (groups : List Members) (share : ShareFields)
        → IsShareSet set → (backup : AreOfBackup set passphrase secret)
        → AreOfPlan group_threshold groups set → Contains set share
        → (members own : Members)
        × (slice_get groups share.group_index ≡ Some members)
        × (slice_get backup.groups share.group_index ≡ Some own)
        × (members.threshold ≡ own.threshold) × (share.member_index < members.count) }
{
    backups_reissue_their_shares();
}

/// A plan with more members has a backup with the same random bytes, and the backup of the smaller plan is a part of
/// it.
pub fn larger_plans_keep_the_shares()
    ensures exists { (asked : Asked) (larger : List Members) (random : List ℕ)
        → IsPlan asked.group_threshold larger → HaveMoreMembers asked.groups larger
        → IsSecretLength (length asked.secret) → AreBytes asked.secret → AreBytes random
        → length random ≡ needed_by asked
        → (others : List ShareFields)
        × IsCreatedFrom (record asked { groups = larger }) random others }
    ensures part { (asked : Asked) (larger : List Members) (random : List ℕ)
        (shares others : List ShareFields)
        → IsPlan asked.group_threshold asked.groups → HaveMoreMembers asked.groups larger
        → IsCreatedFrom asked random shares
        → IsCreatedFrom (record asked { groups = larger }) random others
        → ArePartOf asked.groups shares others }
{
    first_shares();
    one_created_backup();
    every_backup_can_be_created();
}

/// The plan `2of4` has more members than the plan `2of3`. So does `2/2of16,1of1,3of5` than `2/2of3,1of1,3of5`.
pub fn there_are_larger_plans()
    ensures of_one_group { (plan larger : ℕ × List Members)
        × IsPlanReading (codes "2of3") (Ok plan) × IsPlanReading (codes "2of4") (Ok larger)
        × (plan.0 ≡ larger.0) × HaveMoreMembers plan.1 larger.1 }
    ensures of_several_groups { (plan larger : ℕ × List Members)
        × IsPlanReading (codes "2/2of3,1of1,3of5") (Ok plan)
        × IsPlanReading (codes "2/2of16,1of1,3of5") (Ok larger)
        × (plan.0 ≡ larger.0) × HaveMoreMembers plan.1 larger.1 }
{}
