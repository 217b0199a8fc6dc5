//! Facts about the definitions, each the contract of a function that does nothing.
ghost use Rattle.std.specs.Prelude.{◌≡◌, ◌↔◌, ◌⊎◌, ◌+◌, ◌++◌, ◌∷◌, [], ℕ, suc, List, length, Option, Some, None, IsTrue};
ghost use Rattle.s39_words.specs.declared.share.ShareFields.{ShareFields};
ghost use Rattle.s39_set.specs.SetFacts.{SameSharesRefuseTheSame, OneMoreIsAdded, SetsAreTheirShares, SetsHaveOneLack, SetsWithQuorumsHaveNone};
ghost use Rattle.s39_set.specs.ShareSet.{IsShareSet, SharesThatAgreeJoin, SetsTakeShares};
ghost use Rattle.s39_set.specs.Names.{Names, most_groups, most_members, most_names};
ghost use Rattle.s39_set.specs.Looks.{most_test_looks, most_step_looks};
ghost use Rattle.s39_set.specs.Quorums.{IsQuorum, IsFirstQuorumAfter, HasNoQuorumAfter, HasJustTheGroups};
ghost use Rattle.s39_set.specs.Listing.{AreAllQuorumsAfter, IsListing, IsWalk};
ghost use Rattle.s39_set.specs.Counting.{quorum_count};
ghost use Rattle.s39_set.specs.Written.{quorum_text, IsWrittenForm};
ghost use Rattle.s39_set.specs.Lack.{IsLack};
ghost use Rattle.s39_set.specs.Status.{has_enough};
ghost use Rattle.s39_set.specs.declared.set_lack.SetLack.{SetLack as Lack};

use crate::limits::{GROUPS, MAX_GROUPS, MAX_MEMBERS, MAX_NAMES, MAX_STEP_LOOKS, MAX_TEST_LOOKS};

/// The program's limits are those of the definitions.
pub fn numbers()
    ensures groups { MAX_GROUPS ≡ most_groups }
    ensures slots { GROUPS ≡ most_groups }
    ensures members { MAX_MEMBERS ≡ most_members }
    ensures names { MAX_NAMES ≡ most_names }
    ensures test_looks { MAX_TEST_LOOKS ≡ most_test_looks }
    ensures step_looks { MAX_STEP_LOOKS ≡ most_step_looks }
{}

/// A quorum has names of exactly as many groups as the group threshold says, and exactly as many names of each as its
/// member threshold says. Every list of names at hand with these numbers is a quorum.
pub fn quorums_are_exact()
    ensures { (set : List ShareFields) (names : Names) → IsShareSet set
        → (IsQuorum set names ↔ HasJustTheGroups set names) }
{}

/// Every set has a first quorum, or there is a cause for which it has none.
pub fn quorum_or_lack()
    ensures { (set : List ShareFields) → IsShareSet set
        → ((names : Names) × IsFirstQuorumAfter set None names)
        ⊎ ((lack : Lack) × IsLack set lack) }
{}

/// The names of a quorum have a written form, and a text is the written form of at most one list.
pub fn written_forms()
    ensures quorums { (set : List ShareFields) (names : Names)
        → IsShareSet set → IsQuorum set names → IsWrittenForm (quorum_text names) names }
    ensures once { (text : List ℕ) (names others : Names)
        → IsWrittenForm text names → IsWrittenForm text others → names ≡ others }
{}

/// A set has at most one first quorum after a given list of names, or of all.
pub fn one_first_quorum()
    ensures { (set : List ShareFields) (given : Option Names)
        (names others : Names)
        → IsFirstQuorumAfter set given names → IsFirstQuorumAfter set given others
        → names ≡ others }
{}

/// Begin with the first quorum, and go on to the first one after it, until none comes after. This walk has all quorums,
/// each once, in ascending order.
pub fn walks_list_all()
    ensures { (set : List ShareFields) (given : Option Names)
        (quorums : List Names)
        → (IsWalk set given quorums ↔ AreAllQuorumsAfter set given quorums) }
{}

/// There is one listing of a set's quorums, after each list of names and for each limit.
pub fn one_listing()
    ensures exists { (set : List ShareFields) (given : Option Names) (limit : ℕ)
        → IsShareSet set → (listed : List Names) × IsListing set given limit listed }
    ensures once { (set : List ShareFields) (given : Option Names) (limit : ℕ)
        (listed others : List Names)
        → IsListing set given limit listed → IsListing set given limit others → listed ≡ others }
{}

/// A set has as many quorums as there are ways to choose groups, and members of each.
pub fn quorums_are_counted()
    ensures { (set : List ShareFields) (quorums : List Names)
        → IsShareSet set → AreAllQuorumsAfter set None quorums
        → length quorums ≡ quorum_count set }
{}

/// A listing is the first quorum and the listing after it; it is empty if no quorum comes after. A listing and the one
/// after its last quorum are one listing, whose limit is the sum of both limits.
pub fn listings_join()
    ensures first { (set : List ShareFields) (given : Option Names)
        (names : Names) (limit : ℕ) (others : List Names)
        → IsFirstQuorumAfter set given names → IsListing set (Some names) limit others
        → IsListing set given (suc limit) (names ∷ others) }
    ensures none { (set : List ShareFields) (given : Option Names) (limit : ℕ)
        → HasNoQuorumAfter set given → IsListing set given limit [] }
    ensures parts { (set : List ShareFields) (given : Option Names) (limit more : ℕ)
        (before : List Names) (last : Names) (others : List Names)
        → IsListing set given limit (before ++ last ∷ []) → IsListing set (Some last) more others
        → IsListing set given (limit + more) ((before ++ last ∷ []) ++ others) }
{}

/// Shares refuse a share only if it differs from one of them in a field that all shares of a backup have in common, in
/// the member threshold of its group, or in the value of its name.
pub fn shares_that_agree_join()
    ensures { SharesThatAgreeJoin }
{}

/// If a set doesn't refuse a share, the share is already in it, or there is a set with one share more.
pub fn sets_take_shares()
    ensures { SetsTakeShares }
{}

/// Whether and why shares refuse another share depends only on which shares they are, not on their order, or on how often each is listed.
pub fn same_shares_refuse_the_same()
    ensures { SameSharesRefuseTheSame }
{}

/// A list with one share more has the old shares and that one.
pub fn one_more_is_added()
    ensures { OneMoreIsAdded }
{}

/// A list of shares in the order of their names is determined by which shares it has.
pub fn sets_are_their_shares()
    ensures { SetsAreTheirShares }
{}

/// A set has at most one cause for which it has no quorum, and none if it has a quorum.
pub fn one_lack()
    ensures one { SetsHaveOneLack }
    ensures none { SetsWithQuorumsHaveNone }
{}

/// A set has enough, as its status says, if and only if it has a quorum, and if and only if there is no cause for which
/// it has none.
pub fn enough_is_a_quorum()
    ensures quorum { (set : List ShareFields) → IsShareSet set
        → (IsTrue (has_enough set) ↔ ((names : Names) × IsQuorum set names)) }
    ensures no_lack { (set : List ShareFields) → IsShareSet set
        → (IsTrue (has_enough set) ↔ ((lack : Lack) → ¬ IsLack set lack)) }
{}
