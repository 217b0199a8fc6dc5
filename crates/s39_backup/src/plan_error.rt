//! Why a text isn't a plan.
ghost use Rattle.std.specs.Prelude.{◌≡◌};
ghost use Rattle.s39_backup.specs.Plan.{plan_cause_of};

use s39_refusal::{Cause, code};

/// Why a text isn't a plan.
#[derive(Clone, Copy, Debug, PartialEq, Eq)]
pub enum PlanError {
    /// The text has another form than `TofN` or `GT/T1ofN1,T2ofN2,..`, in which numbers have one or two digits and
    /// don't begin with 0.
    BadPlan,
    /// There are more than 16 groups, or fewer than the group threshold.
    PlanGroups,
    /// This group, counted from 0, has more than 16 members, or fewer members than its threshold.
    PlanMembers { group: u8 },
    /// This group, counted from 0, has the member threshold 1 and more than one member.
    OneOfMany { group: u8 },
}

impl PlanError {
    /// Returns the number of the refusal, 31 to 34, and the group if the refusal names one.
    pub fn cause(&self) -> Cause
        ensures { result ≡ plan_cause_of self.now }
    {
        match self {
            PlanError::BadPlan => Cause::of(code::BAD_PLAN),
            PlanError::PlanGroups => Cause::of(code::PLAN_GROUPS),
            PlanError::PlanMembers { group } => Cause::new(
                code::PLAN_MEMBERS,
                u64::from(*group),
                0,
            ),
            PlanError::OneOfMany { group } => Cause::new(code::ONE_OF_MANY, u64::from(*group), 0),
        }
    }
}
