//! The first quorum of a set.
ghost use Rattle.std.specs.Prelude.{◌≡◌, length, None, IfOk, IfErr, Err};
ghost use Rattle.s39_set.specs.ShareSet.{IsShareSet};
ghost use Rattle.s39_set.specs.Quorums.{IsFirstQuorumAfter};
ghost use Rattle.s39_set.specs.Steps.{groups_from};
ghost use Rattle.s39_set.specs.Lack.{IsLack};
ghost use Rattle.s39_set.specs.declared.set_lack.SetLack.{SetLack as Lack};

use crate::limits::{GROUPS, MAX_GROUPS};
use crate::looks::Looks;
use crate::next::StepContext;
use crate::quorum::Quorum;
use crate::set_lack::SetLack;
use crate::share_set::{ShareSet, are_a_share_set};

/// The first quorum of a set: the one whose list of names is least. Lists are compared name by name, and names by group
/// and then by member index.
///
/// The error is `NoShares` if the set is empty, and `Incomplete` if it has shares, but no names of them meet the
/// thresholds.
///
/// ```rust
/// // The set has members 0 and 2 of group 0, of which two are needed.
/// assert_eq!(rt; first(&set)?.pairs(), [(0, 0), (0, 2)].as_slice());
/// assert!(rt; matches!(first(&ShareSet::new()), Err(SetLack::NoShares)));
/// ```
pub fn first(set: &ShareSet) -> Result<Quorum, SetLack>
    ensures is_set { IsShareSet set.now }
    ensures first { IfOk result (IsFirstQuorumAfter set.now None) }
    ensures lack { IfErr result (IsLack set.now) }
    ensures only { (lack : Lack) → IsLack set.now lack → result ≡ Err lack }
{
    are_a_share_set(set);
    let required = set.group_threshold().ok_or(SetLack::NoShares)?;
    // The first quorum is what completes no names. Its looks are told to nobody.
    let mut looks = Looks::new();
    let context = StepContext::of(set, &[], &mut looks);
    let complete = count_groups(&context.complete);
    if complete < required {
        return Err(SetLack::Incomplete { complete, required });
    }
    let mut quorum = Quorum::new();
    context.push_groups(set, 0, required, &mut quorum, &mut looks);
    Ok(quorum)
}

/// How many groups a table says to be complete.
#[tactic(auto, using(crate::proofs::RangesFrom::count_from_yes, crate::proofs::RangesFrom::count_from_no))]
pub(crate) fn count_groups(complete: &[bool; GROUPS]) -> u8
    ensures { result ≡ length (groups_from complete.now 0) }
{
    let mut groups = 0;
    for group in 0..MAX_GROUPS {
        if complete[usize::from(group)] {
            groups += 1;
        }
    }
    groups
}
