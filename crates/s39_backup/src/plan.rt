//! Plans: how many groups a backup has and how many of them are needed, and the same for the members of each group.
ghost use Rattle.std.specs.Prelude.{◌≡◌, ◌↔◌, ◌≤◌, length, IsTrue};
ghost use Rattle.std.specs.List.{enumerate_from};
ghost use Rattle.std.specs.Result.{result_map_both};
ghost use Rattle.s39_lists.specs.Each.{each};
ghost use Rattle.s39_set.specs.Names.{most_groups};
ghost use Rattle.s39_kdf.specs.Limits.{shortest_secret, longest_secret};
ghost use Rattle.s39_backup.specs.Plan.{IsPlan, IsNameOfPlan, IsOnlyReading, judged_group};
ghost use Rattle.s39_backup.specs.Created.{random_needed, most_random};

use crate::creation::ID_BYTES;
use crate::plan_error::PlanError;
use crate::plan_text::plan_form;
use arrayvec::ArrayVec;
use s39_set::{GROUPS, MAX_MEMBERS};
use s39_split::random_needed;

/// How many members of a group are needed, and how many the group has.
#[derive(Clone, Copy, Debug, Default, PartialEq, Eq)]
pub struct Members {
    /// The member threshold: how many members are needed, from 1 to 16 in a plan.
    pub threshold: u8,
    /// How many members the group has, from 1 to 16 in a plan.
    pub count: u8,
}

/// The plan of a backup: its group threshold, and the members of each group (SLIP-0039, "Generating the shares").
///
/// In every plan `1 <= group threshold <= number of groups <= 16`, and in each group `1 <= threshold <= count <= 16`. A
/// group has the member threshold 1 only if it has one member.
#[derive(Debug, Drop)]
pub struct Plan {
    /// The group threshold: how many groups are needed.
    pub group_threshold: u8,
    /// The members of each group, by its index.
    pub groups: ArrayVec<Members, GROUPS>,
    ghost is_plan: { IsPlan group_threshold groups.items },
}

impl Plan {
    /// Parses a plan from its text: `TofN` for one group, with the group threshold 1, or `GT/T1ofN1,T2ofN2,..`. The
    /// numbers have one or two digits and don't begin with 0, and the text has no spaces.
    ///
    /// The first error that applies is returned:
    ///
    /// - `BadPlan` if the text has another form, for example several groups without `GT/`;
    /// - `PlanGroups` if there are more than 16 groups, or fewer than `GT`;
    /// - then, group by group (counted from 0), `PlanMembers` if `N` is above 16 or `T` is above `N`, and `OneOfMany`
    ///   if `T` is 1 and `N` is above 1.
    ///
    /// ```rust
    /// let plan = Plan::parse("2/2of3,1of1,1of1")?;
    /// assert_eq!(rt; (plan.group_threshold, plan.groups.len()), (2, 3));
    /// let members = Members {
    ///     threshold: 2,
    ///     count: 3,
    /// };
    /// assert_eq!(rt; plan.groups.first(), Some(&members));
    /// let refused = Plan::parse("1of3");
    /// assert_eq!(rt; refused.err(), Some(PlanError::OneOfMany { group: 0 }));
    /// ```
    pub fn parse(text: &str) -> Result<Plan, PlanError>
        ensures { IsOnlyReading text.now (result_map_both
            (λ plan. (plan.group_threshold, plan.groups.items)) (λ error. error) result) }
    {
        Plan::parse_bytes(text.as_bytes())
    }

    /// Parses a plan from bytes, which needn't be UTF-8. It returns what `parse` returns for a text.
    ///
    /// ```rust
    /// let plan = Plan::parse_bytes(b"2of3")?;
    /// assert_eq!(rt; (plan.group_threshold, plan.groups.len()), (1, 1));
    /// let refused = Plan::parse_bytes(b"2of3\xff");
    /// assert_eq!(rt; refused.err(), Some(PlanError::BadPlan));
    /// ```
    pub fn parse_bytes(text: &[u8]) -> Result<Plan, PlanError>
        ensures { IsOnlyReading text.now (result_map_both
            (λ plan. (plan.group_threshold, plan.groups.items)) (λ error. error) result) }
    {
        let Some((group_threshold, groups)) = plan_form(text) else {
            return Err(PlanError::BadPlan);
        };
        if groups.count > GROUPS || groups.count < usize::from(group_threshold) {
            return Err(PlanError::PlanGroups);
        }
        check_groups(groups.first.as_slice())?;
        Ok(Plan {
            group_threshold,
            groups: groups.first,
        })
    }

    /// Returns how many random bytes `create` takes for a secret of `n_bytes` bytes: 2 for the identifier, and those of
    /// the group level and of each group (`s39_split::random_needed`). That is at most 32,574.
    ///
    /// The caller passes a length from 16 to 128.
    ///
    /// ```rust
    /// let plan = Plan::parse("2/2of3,1of1,1of1")?;
    /// assert_eq!(rt; plan.random_needed(16), 26);
    /// ```
    pub fn random_needed(&self, n_bytes: usize) -> usize
        requires long { shortest_secret ≤ n_bytes }
        requires fits { n_bytes ≤ longest_secret }
        ensures needed { result
            ≡ random_needed self.now.group_threshold self.now.groups.items n_bytes }
        ensures few { result ≤ most_random }
    {
        let mut needed = ID_BYTES + random_needed(self.group_threshold, n_bytes);
        for members in self.groups.as_slice() {
            needed += random_needed(members.threshold, n_bytes);
        }
        needed
    }

    /// Returns whether the plan has a share with this name: it has the group, and the group has the member. Both
    /// indices count from 0.
    ///
    /// ```rust
    /// let plan = Plan::parse("2/2of3,1of1,1of1")?;
    /// assert!(rt; plan.has_name(0, 2));
    /// assert!(rt; !plan.has_name(0, 3));
    /// ```
    pub fn has_name(&self, group: u8, member: u8) -> bool
        ensures { IsTrue result ↔ IsNameOfPlan self.now.groups.items (group, member) }
    {
        match self.groups.get(usize::from(group)) {
            Some(members) => member < members.count,
            None => false,
        }
    }
}

/// Refuses the first group that a plan can't have.
fn check_groups(groups: &[Members]) -> Result<(), PlanError>
    requires { length groups.now ≤ most_groups }
    ensures { each judged_group (enumerate_from 0 groups.now)
        ≡ result_map_both (λ _. groups.now) (λ error. error) result }
{
    for (place, members) in groups.iter().enumerate() {
        if members.count > MAX_MEMBERS || members.threshold > members.count {
            return Err(PlanError::PlanMembers { group: place as u8 });
        }
        if members.threshold == 1 && members.count > 1 {
            return Err(PlanError::OneOfMany { group: place as u8 });
        }
    }
    Ok(())
}
