//! The parsing of plans: their texts are cut at the separators.
ghost use Rattle.std.specs.Prelude.{◌≡◌, ◌+◌, ◌<◌, ◌==◌, ℕ, List, [], ◌∷◌, ◌++◌, None, Some, IfSome};
ghost use Rattle.s39_backup.specs.declared.plan.Members.{Members};
ghost use Rattle.s39_backup.specs.Plan.{PlanForm};
ghost use Rattle.s39_backup.specs.PlanText.{IsNumberText, IsMembersText, IsGroupsText};
ghost use Rattle.s39_backup.specs.PlanText.{IsListOf, ListsGroupsOf, ListsPlanOf};

use crate::plan::Members;
use arrayvec::ArrayVec;
use s39_set::{GROUPS, cut_at, small_number};

/// The groups of a plan's text, whatever their numbers: their count, and the first sixteen of them.
#[derive(Drop)]
pub(crate) struct GroupList {
    pub(crate) count: usize,
    pub(crate) first: ArrayVec<Members, GROUPS>,
}

impl GroupList {
    /// Appends a group, and keeps it if it is among the first sixteen.
    fn push(&mut self, members: Members)
        requires { self.old.count < usize.MAX }
        ensures count { self.new.count ≡ self.old.count + 1 }
        ensures list { (groups : List Members) → IsListOf self.old groups
            → IsListOf self.new (groups ++ members ∷ []) }
    {
        if self.first.len() < GROUPS {
            self.first.push(members);
        }
        self.count += 1;
    }
}

/// The group threshold and the groups of a text of the form `TofN`, which is one group with the group threshold 1, or
/// `GT/T1ofN1,T2ofN2,..`; `None` if the text has another form.
pub(crate) fn plan_form(text: &[u8]) -> Option<(u8, GroupList)>
    ensures form { IfSome result (ListsPlanOf text.now) }
    ensures none { result ≡ None → ¬ PlanForm text.now }
{
    let Some((front, back)) = cut_at(text, b'/') else {
        let groups = group_list(text)?;
        if groups.count != 1 {
            return None;
        }
        return Some((1, groups));
    };
    let group_threshold = number(front)?;
    let groups = group_list(back)?;
    Some((group_threshold, groups))
}

/// The groups of a text of the form `T1ofN1,T2ofN2,..`, at least one; `None` if the text has another form.
fn group_list(text: &[u8]) -> Option<GroupList>
    ensures groups { IfSome result (ListsGroupsOf text.now) }
    ensures none { result ≡ None → (groups : List Members) → ¬ IsGroupsText text.now groups }
{
    let mut groups = GroupList {
        count: 0,
        first: ArrayVec::new(),
    };
    for part in text.split(is_comma) {
        let members = members(part)?;
        groups.push(members);
    }
    Some(groups)
}

fn is_comma(byte: &u8) -> bool
    ensures { result ≡ (byte.now == 44) }
{
    *byte == b','
}

/// The members of a text of the form `TofN`; `None` if the text has another form.
fn members(text: &[u8]) -> Option<Members>
    ensures members { IfSome result (IsMembersText text.now) }
    ensures none { result ≡ None → (members : Members) → ¬ IsMembersText text.now members }
{
    let (front, rest) = cut_at(text, b'o')?;
    let (between, back) = cut_at(rest, b'f')?;
    if !between.is_empty() {
        return None;
    }
    let threshold = number(front)?;
    let count = number(back)?;
    Some(Members { threshold, count })
}

/// The number whose decimal form the text is, if it has one or two digits and doesn't begin with 0.
fn number(text: &[u8]) -> Option<u8>
    ensures number { IfSome result (IsNumberText text.now) }
    ensures only { (n : ℕ) → IsNumberText text.now n → result ≡ Some n }
{
    let number = small_number(text)?;
    if number == 0 {
        return None;
    }
    Some(number)
}
