//! The command `drill`: the quorums of an input's shares in order, each with its outcome.
ghost use Rattle.std.specs.Prelude.{◌≡◌, ◌≢◌, ℕ, List, Option, ◌+◌, ◌-◌, ◌*◌, ◌<◌, ◌≤◌, ◌++◌, All, Some, None, Ok, Err, IfOk, IfErr, IfSome, length};
ghost use Rattle.std.specs.Option.{option_copied};
ghost use Rattle.s39_kdf.specs.Limits.{IsPrintable, longest_secret};
ghost use Rattle.s39_kdf.specs.declared.limits.BadPassphrase.{BadPassphrase};
ghost use Rattle.s39_set.specs.Names.{Names};
ghost use Rattle.s39_set.specs.Looks.{most_step_looks};
ghost use Rattle.s39_set.specs.Listing.{IsListing};
ghost use Rattle.s39_set.specs.Quorums.{IsQuorum, IsFirstQuorumAfter};
ghost use Rattle.s39_set.specs.ShareSet.{IsShareSet};
ghost use Rattle.s39_backup.specs.Outcome.{AreParams, IsOutcome};
ghost use Rattle.s39_drilling.specs.Drill.{IsNext, IsNoDrill, StartsAt, IsDrillOutput, DrillsCreated, WritesDrill};
ghost use Rattle.s39_drilling.specs.Drill.{in_bytes, mismatch_in, mismatch_text, outcome_text, quorum_line, last_line};
ghost use Rattle.s39_drilling.specs.Watching.{SeesAll, SeesFirst, SeesListing, WritesFirst};
ghost use Rattle.s39_input.specs.declared.output.TheConstants.{LINE_BYTES};
ghost use Rattle.s39_input.specs.Fault.{fault_of};
ghost use Rattle.s39_input.specs.Runs.{OfInput, Runs};

use crate::laws::{created_backups_drill, drill_laws};
use s39_backup::{Memo, Mismatch, combine_quorum, params_of};
use s39_input::{
    Counting, DeviceFailure, Fault, Line, Refusal, SecretForm, Watch, WriteFailed, checked_set,
    is_unexpected, push_field, push_names, push_secret, push_text, write_text,
};
use s39_kdf::Bytes;
use s39_set::laws::{listings_join, one_listing};
use s39_set::{Looks, NotAQuorum, Quorum, SetLack, ShareSet, first, next_after};
use std::io::{Read, Write};

/// What a drill found.
#[derive(Clone, Copy, Debug, PartialEq, Eq)]
pub struct Done {
    /// How many of the listed quorums have a digest that doesn't match, or give a secret with another fingerprint than
    /// the expected one.
    pub mismatches: u32,
}

/// Why a set isn't drilled.
#[derive(Clone, Copy, Debug)]
pub enum NoDrill {
    /// The set has no quorum.
    Lack(SetLack),
    /// The names after which the drill is to start aren't a quorum of the set.
    NotAQuorum,
}

impl From<SetLack> for NoDrill {
    ghost use Rattle.s39_drilling.specs.declared.drill.NoDrill.TheVariants.{Lack};

    ghost from_gives = { λ lack cause. cause ≡ Lack lack };

    fn from(lack: SetLack) -> NoDrill {
        NoDrill::Lack(lack)
    }
}

impl From<NoDrill> for Fault {
    ghost use Rattle.s39_drilling.specs.Drill.{fault_of_no_drill};

    ghost from_gives = { λ cause fault. fault ≡ fault_of_no_drill cause };

    fn from(cause: NoDrill) -> Fault {
        match cause {
            NoDrill::Lack(lack) => Fault::from(Refusal::Lack(lack)),
            NoDrill::NotAQuorum => Fault::from(Refusal::NotAQuorum),
        }
    }
}

/// Tries the quorums of the input's shares in ascending order, and writes a line for each as soon as it is known: the
/// quorum, a space, and its outcome. It starts after the given quorum, or at the first one if none is given, and tries
/// at most `limit` quorums.
///
/// The outcome is the secret that the quorum recovers with the passphrase, or its fingerprint, in lower-case
/// hexadecimal. If a fingerprint is expected, it is `as expected` or `other secret` instead. If a digest doesn't match,
/// it is `digest mismatch in group G` with the lowest such group, or `digest mismatch of groups`. The last line is
/// `end` if no greater quorum remains, and otherwise `more after ` and the last listed quorum. The function returns the
/// number of mismatches, among them the secrets that aren't the expected one.
///
/// Blank lines and comments are skipped. A comment starts with `#`, after any spaces, tabs and carriage returns.
///
/// The first error that applies is returned, and then nothing is written:
///
/// - `Passphrase` if a byte of the passphrase isn't printable ASCII, before anything is read;
/// - what `s39_input::read_set` refuses: a line, or a failed read;
/// - `Lack` if the shares have no quorum;
/// - `NotAQuorum` if the given names aren't a quorum of the shares.
///
/// If a write fails or takes no byte, the fault is `Device(Write)`, and a beginning of the lines is written. A wrong
/// passphrase isn't detected: as a rule it gives other secrets. The caller passes a `limit` of at least 1, and keeps
/// both `failures()` below `u64::MAX`.
///
/// `watch` is told of the set before the first line, unless the drill is refused. Each time that the line of a quorum is
/// written, it is told how many are.
///
/// ```rust
/// let mut input = Counting::new(
///     b"duckling enlarge academic academic agency result length solution fridge kidney coal \
///     piece deal husband erode duke ajar critical decision keyboard\n"
///         .as_slice(),
/// );
/// let mut text = Vec::new(rt.alloc());
/// let mut output = Counting::new(&mut text);
/// let form = SecretForm::Fingerprint;
/// let done = run_drill(form, b"TREZOR", None, 1000, &mut input, &mut output, &mut ())?;
/// assert_eq!(rt; done.mismatches, 0);
/// assert_eq!(rt; text.as_slice(), b"0.0 df41d8fe\nend\n".as_slice());
/// ```
pub fn run_drill<R: Read, W: Write, P: Watch>(
    form: SecretForm,
    passphrase: &[u8],
    after: Option<&Quorum>,
    limit: u32,
    input: &mut Counting<R>,
    output: &mut Counting<W>,
    watch: &mut P,
) -> Result<Done, Fault>
    requires some { 1 ≤ limit }
    requires readable { input.old.failures < u64.MAX }
    requires writable { output.old.failures < u64.MAX }
    ensures runs { Runs R.remaining W.contents
        (IsDrillOutput form passphrase.now (option_copied after.entry) limit)
        input.old input.new output.old output.new result }
    // Of mnemonics of a created backup, with the passphrase of the creation: just the quorums, each with its secret.
    ensures complete { Runs R.remaining W.contents
        (DrillsCreated form passphrase.now (option_copied after.entry) limit)
        input.old input.new output.old output.new result }
    ensures seen { IfOk result (λ done. OfInput R.remaining input.old input.new
        (SeesAll P.counts P.finds (option_copied after.entry) limit watch.old watch.new)) }
    // If a write fails, it is told of some of the first quorums, whose lines are written.
    ensures cut { IfErr result (λ fault. fault.refusal ≡ Refusal.Device DeviceFailure.Write
        → OfInput R.remaining input.old input.new
        (SeesFirst P.counts P.finds
        (λ set. WritesFirst W.contents output.old output.new form set passphrase.now)
        (option_copied after.entry) limit watch.old watch.new)) }
    // Of any devices.
    ensures untouched { IfErr result (λ fault.
        fault.refusal ≢ Refusal.Device DeviceFailure.Write
        → (output.new ≡ output.old) × (watch.new ≡ watch.old)) }
    ensures unread { (bad : BadPassphrase)
        → result ≡ Err (fault_of (Refusal.Passphrase bad)) → input.new ≡ input.old }
{
    created_backups_drill();
    one_listing();
    let set = checked_set(passphrase, input)?;
    let start = start_of(&set, after)?;
    watch.found(&set);
    Ok(list_from(form, &set, start, passphrase, limit, output, watch)?)
}

/// The quorum at which a drill of a set starts: the one after the given quorum, or the first one if none is given. It is
/// `None` if the given one is the last.
///
/// The first error that applies is returned:
///
/// - `Lack` if the shares have no quorum;
/// - `NotAQuorum` if the given names aren't a quorum of the shares.
pub(crate) fn start_of(set: &ShareSet, after: Option<&Quorum>) -> Result<Option<Quorum>, NoDrill>
    ensures is_set { IsShareSet set.now }
    ensures start { IfOk result (StartsAt set.now (option_copied after.entry)) }
    ensures refused { IfErr result (IsNoDrill set.now (option_copied after.entry)) }
{
    let least = first(set)?;
    match after {
        None => Ok(Some(least)),
        Some(quorum) => match next_after(set, quorum, &mut Looks::new()) {
            Ok(next) => Ok(next),
            Err(NotAQuorum) => Err(NoDrill::NotAQuorum),
        },
    }
}

/// Tries the quorums of a set from `start` on, which `start_of` gives, and writes their lines and the last line. If
/// `start` is `None`, only the last line is written. Each time that the line of a quorum is written, `watch` is told how
/// many are.
fn list_from<W: Write, P: Watch>(
    form: SecretForm,
    set: &ShareSet,
    start: Option<Quorum>,
    passphrase: &[u8],
    limit: u32,
    output: &mut Counting<W>,
    watch: &mut P,
) -> Result<Done, WriteFailed>
    requires is_set { IsShareSet set.now }
    requires quorum { IfSome start (IsQuorum set.now) }
    requires printable { All IsPrintable passphrase.now }
    requires some { 1 ≤ limit }
    requires writable { output.old.failures < u64.MAX }
    ensures lines { (after : Option Names) → IsNext set.now after start
        → WritesDrill W.contents output.old form set.now passphrase.now after limit result output.new }
    ensures seen { (after : Option Names) (listed : List Names) → IsNext set.now after start
        → IsListing set.now after limit listed
        → SeesListing P.counts
        (WritesFirst W.contents output.old output.new form set.now passphrase.now)
        listed result watch.old watch.new }
{
    listings_join();
    one_listing();
    let Some(quorum) = start else {
        write_text(output, last_line(None).as_slice())?;
        return Ok(Done { mismatches: 0 });
    };
    let mut memo = Memo::new(passphrase, params_of(set, &quorum));
    write_drill(form, set, quorum, &mut memo, limit, output, watch)
}

/// Writes the lines of a drill that starts at this quorum, the last line too, and tells how many quorums are listed. It has no
/// passphrase but that of the memo, so one memo serves all quorums.
fn write_drill<W: Write, P: Watch>(
    form: SecretForm,
    set: &ShareSet,
    start: Quorum,
    memo: &mut Memo<'_>,
    limit: u32,
    output: &mut Counting<W>,
    watch: &mut P,
) -> Result<Done, WriteFailed>
    requires is_set { IsShareSet set.now }
    requires quorum { IsQuorum set.now start }
    requires params { AreParams set.now memo.old.params }
    requires some { 1 ≤ limit }
    requires writable { output.old.failures < u64.MAX }
    ensures lines { (after : Option Names) → IsFirstQuorumAfter set.now after start
        → WritesDrill W.contents output.old form set.now memo.old.passphrase after limit result output.new }
    ensures seen { (after : Option Names) (listed : List Names)
        → IsFirstQuorumAfter set.now after start → IsListing set.now after limit listed
        → SeesListing P.counts
        (WritesFirst W.contents output.old output.new form set.now memo.old.passphrase)
        listed result watch.old watch.new }
{
    drill_laws();
    let mut looks = Looks::new();
    let mut quorum = start;
    let mut mismatches = 0;
    let mut left = limit;
    loop {
        let outcome = outcome_of(set, &quorum, memo);
        write_text(output, quorum_line(form, &quorum, &outcome).as_slice())?;
        mismatches += mismatch_in(form, &outcome);
        left -= 1;
        watch.listed(limit - left);
        let next = following(set, &quorum, &mut looks);
        if left == 0 || next.is_none() {
            let last = last_line(next.is_some().then_some(&quorum));
            write_text(output, last.as_slice())?;
            return Ok(Done { mismatches });
        }
        quorum = next.unwrap();
    }
}

/// The quorum that comes after one of a set, if there is one.
pub(crate) fn following(set: &ShareSet, quorum: &Quorum, looks: &mut Looks) -> Option<Quorum>
    requires quorum { IsQuorum set.now quorum.now }
    requires looks { looks.old ≤ u64.MAX - most_step_looks }
    ensures next { IsNext set.now (Some quorum.now) result }
    ensures looks { looks.new ≤ looks.old + most_step_looks }
{
    next_after(set, quorum, looks).unwrap()
}

/// What a quorum recovers with the passphrase of a memo, or the mismatch to which it combines.
pub(crate) fn outcome_of(
    set: &ShareSet,
    quorum: &Quorum,
    memo: &mut Memo<'_>,
) -> Result<Bytes, Mismatch>
    requires quorum { IsQuorum set.now quorum.now }
    requires params { AreParams set.now memo.old.params }
    ensures outcome { IsOutcome set.now quorum.now memo.old.passphrase (in_bytes result) }
    ensures passphrase { memo.new.passphrase ≡ memo.old.passphrase }
    ensures params { memo.new.params ≡ memo.old.params }
{
    let encrypted = combine_quorum(set, quorum)?;
    Ok(memo.secret(&encrypted))
}

/// How many mismatches an outcome counts as: one, or none.
pub(crate) fn mismatch_in(form: SecretForm, outcome: &Result<Bytes, Mismatch>) -> u32
    ensures { result ≡ mismatch_in form (in_bytes outcome.now) }
{
    match outcome {
        Ok(secret) => u32::from(is_unexpected(form, secret)),
        Err(_) => 1,
    }
}

/// The line of a quorum and its outcome.
pub(crate) fn quorum_line(
    form: SecretForm,
    quorum: &Quorum,
    outcome: &Result<Bytes, Mismatch>,
) -> Line
    ensures { result.items ≡ quorum_line form (quorum.now, in_bytes outcome.now) }
{
    let mut line = Line::new();
    push_names(&mut line, quorum.pairs());
    line.push(b' ');
    push_outcome(&mut line, form, outcome);
    line.push(b'\n');
    line
}

/// Appends a secret in this form, or whether it is the expected one, or which digest doesn't match.
fn push_outcome(line: &mut Line, form: SecretForm, outcome: &Result<Bytes, Mismatch>)
    requires room { length line.old.items + 2 * longest_secret ≤ LINE_BYTES }
    ensures text { line.new.items ≡ line.old.items ++ outcome_text form (in_bytes outcome.now) }
    ensures room { length line.new.items ≤ length line.old.items + 2 * longest_secret }
{
    match outcome {
        Ok(secret) => push_secret(line, form, secret),
        Err(mismatch) => push_mismatch(line, *mismatch),
    }
}

/// Appends which digest doesn't match.
fn push_mismatch(line: &mut Line, mismatch: Mismatch)
    requires room { length line.old.items + 2 * longest_secret ≤ LINE_BYTES }
    ensures text { line.new.items ≡ line.old.items ++ mismatch_text mismatch }
    ensures room { length line.new.items ≤ length line.old.items + 2 * longest_secret }
{
    match mismatch {
        Mismatch::InGroup { group } => {
            push_field(line, b"digest mismatch in group ", u16::from(group));
        }
        Mismatch::OfGroups => push_text(line, b"digest mismatch of groups"),
    }
}

/// The last line of a drill: after which quorum more remain, or that none do.
pub(crate) fn last_line(more: Option<&Quorum>) -> Line
    ensures { result.items ≡ last_line (option_copied more.entry) }
{
    let mut line = Line::new();
    match more {
        Some(quorum) => {
            push_text(&mut line, b"more after ");
            push_names(&mut line, quorum.pairs());
            line.push(b'\n');
        }
        None => push_text(&mut line, b"end\n"),
    }
    line
}
