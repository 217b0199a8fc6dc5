//! The command `reissue`: mnemonics of a backup, computed from others of it.
ghost use Rattle.std.specs.Prelude.{◌≡◌, ◌≢◌, ℕ, ◌<◌, ◌≤◌, All, Err, IfErr, OnOk, length};
ghost use Rattle.s39_lists.specs.Each.{each};
ghost use Rattle.s39_set.specs.Names.{most_names};
ghost use Rattle.s39_backup.specs.Plan.{IsNameOfPlan};
ghost use Rattle.s39_backup.specs.Reissue.{AreOfPlan};
ghost use Rattle.s39_input.specs.Fault.{fault_of};
ghost use Rattle.s39_input.specs.Input.{whole};
ghost use Rattle.s39_creating.specs.Reissue.{first_other, given, given_all, IsReissued, IsReissueOutput, ReissuesCreated};
ghost use Rattle.s39_input.specs.Runs.{Runs};
ghost use Rattle.s39_input.specs.Slices.{Puts};

use crate::creating::{put_answer, write_mnemonics};
use crate::laws::created_backups_reissue;
use s39_backup::{Created, Plan, is_of_plan, reissue};
use s39_input::laws::every_input_is_read;
use s39_input::{
    Counting, DeviceFailure, Fault, NoOutput, Refusal, WrittenLines, read_set, set_in,
};
use s39_set::{Quorum, SetLack, ShareSet};
use std::io::{Read, Write};

/// A name that a plan doesn't have.
#[derive(Clone, Copy)]
struct OtherName {
    group: u8,
    member: u8,
}

impl From<OtherName> for Fault {
    ghost use Rattle.s39_creating.specs.Reissue.{fault_of_name};

    ghost from_gives = { λ name fault. fault ≡ fault_of_name (name.group, name.member) };

    fn from(name: OtherName) -> Fault {
        Fault::from(Refusal::NotInPlan {
            group: name.group,
            member: name.member,
        })
    }
}

/// Writes the mnemonics with these names of a plan, one on each line, in the order of the names. A share that is at
/// hand is written as it is. Any other share follows from enough members of its group, or from one member fewer and
/// enough other complete groups (`s39_backup::reissue`).
///
/// All of them are computed before the first is written, without the passphrase. Blank lines and comments are skipped.
/// A comment starts with `#`, after any spaces, tabs and carriage returns.
///
/// The first error that applies is returned, and then nothing is written:
///
/// - `NotInPlan` with the first name that the plan doesn't have, before anything is read;
/// - what `s39_input::read_set` refuses: a line, or a failed read;
/// - `Lack` if there are no shares;
/// - `OtherPlan` if no backup of the plan can have all shares: their group threshold or number of groups differs, or
///   the plan doesn't have a share's name, or has it with another member threshold;
/// - for each name in turn, `Undetermined` if the shares don't determine the share with this name, or `DigestMismatch`
///   if a digest of the shares that it is computed from doesn't match.
///
/// If a write fails or takes no byte, the fault is `Device(Write)`, and a beginning of the mnemonics is written. The
/// caller keeps both `failures()` below `u64::MAX`.
///
/// ```rust
/// let plan = Plan::parse("2of3")?;
/// let names = parse_names(b"0.1")?;
/// let mut input = Counting::new(
///     b"shadow pistol academic always adequate wildlife fancy gross oasis cylinder mustang \
///     wrist rescue view short owner flip making coding armed\n\
///     shadow pistol academic acid actress prayer class unknown daughter sweater depict flip \
///     twice unkind craft early superior advocate guest smoking\n"
///         .as_slice(),
/// );
/// let mut text = Vec::new(rt.alloc());
/// run_reissue(&plan, &names, &mut input, &mut Counting::new(&mut text))?;
/// assert!(rt; text.starts_with(b"shadow pistol academic agency acid license obtain "));
/// ```
pub fn run_reissue<R: Read, W: Write>(
    plan: &Plan,
    names: &Quorum,
    input: &mut Counting<R>,
    output: &mut Counting<W>,
) -> Result<(), Fault>
    requires readable { input.old.failures < u64.MAX }
    requires writable { output.old.failures < u64.MAX }
    ensures runs { Runs R.remaining W.contents
        (IsReissueOutput plan.now.group_threshold plan.now.groups.items names.now)
        input.old input.new output.old output.new result }
    // Of mnemonics of a backup that was created by the plan: those with these names, or what is at hand and needed for
    // the first name that isn't determined.
    ensures created { Runs R.remaining W.contents
        (ReissuesCreated plan.now.group_threshold plan.now.groups.items names.now)
        input.old input.new output.old output.new result }
    // Of any devices.
    ensures untouched { IfErr result (λ fault.
        fault.refusal ≢ Refusal.Device DeviceFailure.Write → output.new ≡ output.old) }
    ensures unread { (group member : ℕ)
        → result ≡ Err (fault_of (Refusal.NotInPlan group member)) → input.new ≡ input.old }
{
    created_backups_reissue();
    write_reissued(plan, names, input, output)
}

/// Writes the mnemonics with these names of a plan, as `run_reissue` says.
fn write_reissued<R: Read, W: Write>(
    plan: &Plan,
    names: &Quorum,
    input: &mut Counting<R>,
    output: &mut Counting<W>,
) -> Result<(), Fault>
    requires readable { input.old.failures < u64.MAX }
    requires writable { output.old.failures < u64.MAX }
    ensures runs { Runs R.remaining W.contents
        (IsReissueOutput plan.now.group_threshold plan.now.groups.items names.now)
        input.old input.new output.old output.new result }
    ensures untouched { IfErr result (λ fault.
        fault.refusal ≢ Refusal.Device DeviceFailure.Write → output.new ≡ output.old) }
    ensures unread { (group member : ℕ)
        → result ≡ Err (fault_of (Refusal.NotInPlan group member)) → input.new ≡ input.old }
{
    every_input_is_read();
    let pairs = names.pairs();
    check_names(plan, pairs)?;
    let set = read_set(input)?;
    let created = shares_of(plan, pairs, &set)?;
    let shares = created.shares();
    write_mnemonics(output, shares)?;
    Ok(())
}

/// Puts the text that `run_reissue` writes for these lines at the front of `text`: the mnemonics with these names of a
/// plan, each followed by a line feed. It returns the length of that text in bytes, and the number of mnemonics. The
/// bytes of `text` after it are unchanged.
///
/// The first error that applies is returned, and then `text` is unchanged:
///
/// - `NotInPlan` with the first name that the plan doesn't have;
/// - the first refused line, with its number;
/// - `Lack` if there are no shares;
/// - `OtherPlan` if no backup of the plan can have all shares;
/// - for each name in turn, `Undetermined` or `DigestMismatch`;
/// - `TooShort`, with the number of bytes needed, if the text doesn't fit.
///
/// ```rust
/// let plan = Plan::parse("2of3")?;
/// let names = parse_names(b"0.1")?;
/// let lines =
///     b"shadow pistol academic always adequate wildlife fancy gross oasis cylinder mustang \
///     wrist rescue view short owner flip making coding armed\n\
///     shadow pistol academic acid actress prayer class unknown daughter sweater depict flip \
///     twice unkind craft early superior advocate guest smoking\n";
/// let mut text = [0; 200];
/// let put = reissue_lines(&plan, &names, lines, &mut text)?;
/// assert_eq!(rt; (put.written, put.lines), (145, 1));
/// assert!(rt; text.starts_with(b"shadow pistol academic agency acid license obtain "));
/// ```
pub fn reissue_lines(
    plan: &Plan,
    names: &Quorum,
    lines: &[u8],
    text: &mut [u8],
) -> Result<WrittenLines, NoOutput>
    ensures reissued { Puts
        (IsReissueOutput plan.now.group_threshold plan.now.groups.items names.now (whole lines.now))
        text.old text.new result }
    // Of mnemonics of a backup that was created by the plan: those with these names, or what is at hand and needed for
    // the first name that isn't determined.
    ensures created { Puts
        (ReissuesCreated plan.now.group_threshold plan.now.groups.items names.now (whole lines.now))
        text.old text.new result }
{
    created_backups_reissue();
    put_answer(&reissued_of(plan, names, lines), text)
}

/// The shares of these names of a plan, as lines in memory give them.
fn reissued_of(plan: &Plan, names: &Quorum, lines: &[u8]) -> Result<Created, Fault>
    ensures { IsReissued plan.now.group_threshold plan.now.groups.items names.now
        (whole lines.now) result }
{
    every_input_is_read();
    let wanted = names.pairs();
    check_names(plan, wanted)?;
    let set = set_in(lines)?;
    shares_of(plan, wanted, &set)
}

/// The first of these names that a plan doesn't have.
fn check_names(plan: &Plan, names: &[(u8, u8)]) -> Result<(), OtherName>
    ensures all { OnOk result (All (IsNameOfPlan plan.now.groups.items) names.now) }
    ensures other { IfErr result
        (λ name. first_other plan.now.groups.items names.now
        ≡ Some (name.group, name.member)) }
{
    for (group, member) in names {
        if !plan.has_name(*group, *member) {
            return Err(OtherName {
                group: *group,
                member: *member,
            });
        }
    }
    Ok(())
}

/// The shares of these names of a plan, as a set gives them.
fn shares_of(plan: &Plan, names: &[(u8, u8)], set: &ShareSet) -> Result<Created, Fault>
    requires names { All (IsNameOfPlan plan.now.groups.items) names.now }
    requires few { length names.now ≤ most_names }
    ensures { given_all plan.now.group_threshold plan.now.groups.items names.now set.now
        ≡ result }
{
    if set.is_empty() {
        return Err(Fault::from(Refusal::Lack(SetLack::NoShares)));
    }
    if !is_of_plan(set, plan) {
        return Err(Fault::from(Refusal::OtherPlan));
    }
    reissue_each(plan, names, set)
}

/// The shares of these names of a plan, as a set of shares of the plan gives them, or why the first missing one is
/// missing.
fn reissue_each(plan: &Plan, names: &[(u8, u8)], set: &ShareSet) -> Result<Created, Fault>
    requires of_plan { AreOfPlan plan.now.group_threshold plan.now.groups.items set.now }
    requires names { All (IsNameOfPlan plan.now.groups.items) names.now }
    requires few { length names.now ≤ most_names }
    ensures { each (given set.now plan.now.group_threshold plan.now.groups.items) names.now
        ≡ result }
{
    let mut shares = Created::new();
    for (group, member) in names {
        let share = reissue(plan, set, *group, *member)?;
        shares.push(share);
    }
    Ok(shares)
}
