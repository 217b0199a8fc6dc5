//! Commands that are ready to run.
ghost use Rattle.std.specs.Prelude.{◌≡◌, ◌<◌, ◌≤◌, ◌↔◌, false, IfOk, IfErr, IsSomeAnd, Err};
ghost use Rattle.s39_set.specs.Status.{is_enough};
ghost use Rattle.s39_input.specs.Runs.{Runs};
ghost use Rattle.s39_command.specs.Command.{IsInRange, text_in};
ghost use Rattle.s39_cli.specs.Outcome.{IsCursor, IsNoted, WritesNoFingerprint, WritesNoNames};
ghost use Rattle.s39_cli.specs.Outcome.{judged, status_of, told_in, where_done, without_mismatches};
ghost use Rattle.s39_cli.specs.NoWork.{IsNoReissue, IsNoWork};

use crate::person::Person;
use crate::secret_text::secret_of;
use crate::values::Secrets;
use s39_clearing::Cleared;
use s39_command::Job;
use s39_kdf::{BadFingerprint, NotedFingerprint, check_passphrase, parse_fingerprint};
use s39_set::{BadCursor, BadNames, Quorum, Status, parse_names, parse_quorum};
use s39_tool::{
    Counting, Done, Fault, Options, Plan, PlanError, SecretForm, run_create, run_drill,
    run_recover, run_reissue, run_repair, run_resplit, run_show, run_status,
};
use std::alloc::Global;
use std::io::{Read, Write};

/// What a backup is created from, beside its random bytes.
#[derive(Drop)]
pub(crate) struct Creation<'a> {
    plan: Plan,
    secret: Cleared,
    passphrase: &'a [u8],
    options: Options,
}

/// What a drill is of, beside the mnemonics.
#[derive(Drop)]
pub(crate) struct Drill<'a> {
    passphrase: &'a [u8],
    after: Option<Quorum>,
    limit: u32,
    form: SecretForm,
    ghost some: { 1 ≤ limit },
}

/// What is reissued, beside the mnemonics that it is computed from.
#[derive(Drop)]
pub(crate) struct Reissue {
    plan: Plan,
    names: Quorum,
}

/// What is split anew, beside the mnemonics.
#[derive(Drop)]
pub(crate) struct Resplit<'a> {
    plan: Plan,
    random: &'a [u8],
}

/// A command that is ready to run: it needs no more memory.
#[derive(Drop)]
pub(crate) enum Work<'a> {
    /// Shows the fields of mnemonics.
    Show,
    /// Creates a backup.
    Create(Creation<'a>),
    /// Recovers a secret.
    Recover {
        passphrase: &'a [u8],
        form: SecretForm,
        expected: Option<NotedFingerprint>,
    },
    /// Tries quorums.
    Drill(Drill<'a>),
    /// Tells what is at hand of each group.
    Status,
    /// Computes lost mnemonics from others.
    Reissue(Reissue),
    /// Finds the mnemonics that fit lines in which words can't be read.
    Repair,
    /// Creates another backup of a secret.
    Resplit(Resplit<'a>),
}

/// Why a command can't be begun.
#[derive(Clone, Copy)]
pub(crate) enum NoWork {
    /// The text of the master secret isn't hexadecimal, or has an odd number of digits.
    Secret,
    /// The text of the plan gives no plan.
    Plan(PlanError),
    /// The text of a quorum is the written form of no names.
    Cursor(BadCursor),
    /// The text of a fingerprint writes none.
    Fingerprint(BadFingerprint),
    /// The text of names is the written form of no names.
    Names(BadNames),
    /// The program is out of memory.
    Memory,
}

impl From<PlanError> for NoWork {
    ghost use Rattle.s39_cli.specs.declared.work.NoWork.TheVariants.{Plan as BadPlan};

    ghost from_gives = { λ error no_work. no_work ≡ BadPlan error };

    fn from(error: PlanError) -> NoWork {
        NoWork::Plan(error)
    }
}

impl From<BadCursor> for NoWork {
    ghost use Rattle.s39_cli.specs.declared.work.NoWork.TheVariants.{Cursor};

    ghost from_gives = { λ error no_work. no_work ≡ Cursor error };

    fn from(error: BadCursor) -> NoWork {
        NoWork::Cursor(error)
    }
}

impl From<BadFingerprint> for NoWork {
    ghost use Rattle.s39_cli.specs.declared.work.NoWork.TheVariants.{Fingerprint};

    ghost from_gives = { λ error no_work. no_work ≡ Fingerprint error };

    fn from(error: BadFingerprint) -> NoWork {
        NoWork::Fingerprint(error)
    }
}

impl From<BadNames> for NoWork {
    ghost use Rattle.s39_cli.specs.declared.work.NoWork.TheVariants.{Names};

    ghost from_gives = { λ error no_work. no_work ≡ Names error };

    fn from(error: BadNames) -> NoWork {
        NoWork::Names(error)
    }
}

/// The names after which a drill starts, if a text gives some.
fn cursor_of(text: Option<&str>) -> Result<Option<Quorum>, BadCursor>
    ensures cursor { IfOk result (IsCursor text.entry) }
    ensures refused { IfErr result (λ bad. IsSomeAnd text.entry (λ text. WritesNoNames text.now)) }
{
    match text {
        Some(text) => Ok(Some(parse_quorum(text.as_bytes())?)),
        None => Ok(None),
    }
}

/// The fingerprint that is expected, if a text writes one.
fn expected_of(text: Option<&str>) -> Result<Option<NotedFingerprint>, BadFingerprint>
    ensures noted { IfOk result (IsNoted (text_in text.entry)) }
    ensures refused { IfErr result (λ bad. IsSomeAnd (text_in text.entry) WritesNoFingerprint) }
{
    match text {
        Some(text) => Ok(Some(parse_fingerprint(text.as_bytes())?)),
        None => Ok(None),
    }
}

/// The form in which a drill tells secrets: whether they have the expected fingerprint, if there is one.
fn told_in(form: SecretForm, expected: Option<NotedFingerprint>) -> SecretForm
    ensures { result ≡ told_in form expected }
{
    match expected {
        Some(noted) => SecretForm::Expected(noted),
        None => form,
    }
}

impl Reissue {
    ghost use Rattle.s39_cli.specs.Work.{IsReissueOf};

    /// The plan and the names that these texts give. The plan is read first.
    fn of(plan: &str, names: &str) -> Result<Reissue, NoWork>
        ensures reissue { IfOk result (IsReissueOf plan.now names.now) }
        ensures refused { IfErr result (IsNoReissue plan.now names.now) }
    {
        let plan = Plan::parse(plan)?;
        let names = parse_names(names.as_bytes())?;
        Ok(Reissue { plan, names })
    }
}

impl<'a> Work<'a> {
    ghost use Rattle.s39_cli.specs.Said.{SaysInRun, tells_last};
    ghost use Rattle.s39_cli.specs.Untouched.{IsAtItsEnd};
    ghost use Rattle.s39_cli.specs.Work.{HasBadPassphrase, IsWorkOf, IsWorkOutput};

    /// The work of a job, whose texts are read here: those of `create` are the secret and then the plan, those of `drill`
    /// the cursor and then the fingerprint, and those of `reissue` the plan and then the names. In place of a secret, `resplit` has its
    /// random bytes.
    pub(crate) fn of(alloc: Global, job: Job<'a>, texts: Secrets<'a>) -> Result<Work<'a>, NoWork>
        requires { IsInRange job }
        ensures work { IfOk result (IsWorkOf job.entry texts.entry.secret.now texts.entry.passphrase.now) }
        ensures refused { IfErr result (IsNoWork job.entry texts.entry.secret.now) }
    {
        match job {
            Job::Show => Ok(Work::Show),
            Job::Create {
                plan,
                exponent,
                extendable,
            } => {
                let secret = secret_of(alloc, texts.secret)?;
                let plan = Plan::parse(plan)?;
                Ok(Work::Create(Creation {
                    plan,
                    secret,
                    passphrase: texts.passphrase,
                    options: Options {
                        exponent,
                        extendable,
                    },
                }))
            }
            Job::Recover { form, expected } => Ok(Work::Recover {
                passphrase: texts.passphrase,
                form,
                expected: expected_of(expected)?,
            }),
            Job::Drill {
                after,
                limit,
                form,
                expected,
            } => {
                let after = cursor_of(after)?;
                let noted = expected_of(expected)?;
                Ok(Work::Drill(Drill {
                    passphrase: texts.passphrase,
                    after,
                    limit,
                    form: told_in(form, noted),
                }))
            }
            Job::Status => Ok(Work::Status),
            Job::Reissue { plan, names } => Ok(Work::Reissue(Reissue::of(plan, names)?)),
            Job::Repair => Ok(Work::Repair),
            Job::Resplit { plan, .. } => Ok(Work::Resplit(Resplit {
                plan: Plan::parse(plan)?,
                random: texts.secret,
            })),
        }
    }

    /// Whether it begins to read: its passphrase isn't refused before that.
    pub(crate) fn begins(&self) -> bool
        ensures { result ≡ false ↔ HasBadPassphrase self.now }
    {
        match self {
            Work::Recover { passphrase, .. } => check_passphrase(passphrase).is_ok(),
            Work::Drill(drill) => check_passphrase(drill.passphrase).is_ok(),
            _ => true,
        }
    }

    /// Whether its caller tells a person after it that no passphrase was used. A recovery tells that itself, before it writes.
    pub(crate) fn tells_last(&self, tells_of_none: bool) -> bool
        ensures { result ≡ tells_last self.now tells_of_none }
    {
        match self {
            Work::Recover { .. } => false,
            _ => tells_of_none,
        }
    }

    /// Runs the command, and gives whether all is well: no quorum was refused or gives another secret than the expected one,
    /// enough groups are complete, and one mnemonic fits each line, if the command looks for that. A drill and a recovery tell the
    /// person how far they are.
    pub(crate) fn run<R: Read, W: Write, E: Write>(
        &self,
        input: &mut Counting<R>,
        output: &mut Counting<W>,
        person: &mut Person<E>,
    ) -> Result<bool, Fault>
        requires readable { input.old.failures < u64.MAX }
        requires writable { output.old.failures < u64.MAX }
        ensures runs { Runs R.remaining W.contents (IsWorkOutput self.now)
            input.old input.new output.old output.new result }
        // Of any devices.
        ensures untouched { IsAtItsEnd self.now → status_of result ≡ 1
            → ((fault : Fault) × (result ≡ Err fault)) × (output.new ≡ output.old) }
        ensures said { SaysInRun R.remaining E.contents person.old.terminals person.old.is_bare
            self.now input.old.device result person.old person.new }
    {
        match self {
            Work::Show => where_done(run_show(input, output)),
            Work::Create(creation) => where_done(run_create(
                &creation.plan,
                creation.secret.bytes.as_slice(),
                creation.passphrase,
                creation.options,
                input,
                output,
            )),
            Work::Recover {
                passphrase,
                form,
                expected,
            } => where_done(run_recover(*form, *expected, passphrase, input, output, person)),
            Work::Drill(drill) => without_mismatches(run_drill(
                drill.form,
                drill.passphrase,
                drill.after.as_ref(),
                drill.limit,
                input,
                output,
                person,
            )),
            Work::Status => with_enough(run_status(input, output)),
            Work::Reissue(reissue) => {
                where_done(run_reissue(&reissue.plan, &reissue.names, input, output))
            }
            Work::Repair => run_repair(input, output),
            Work::Resplit(resplit) => {
                where_done(run_resplit(&resplit.plan, resplit.random, input, output))
            }
        }
    }
}

/// All is well if this run is done.
fn where_done(answer: Result<(), Fault>) -> Result<bool, Fault>
    ensures { result ≡ judged where_done answer }
{
    match answer {
        Ok(()) => Ok(true),
        Err(fault) => Err(fault),
    }
}

/// All is well with a drill that found no mismatch.
fn without_mismatches(answer: Result<Done, Fault>) -> Result<bool, Fault>
    ensures { result ≡ judged without_mismatches answer }
{
    match answer {
        Ok(done) => Ok(done.mismatches == 0),
        Err(fault) => Err(fault),
    }
}

/// All is well if enough groups are complete.
fn with_enough(answer: Result<Status, Fault>) -> Result<bool, Fault>
    ensures { result ≡ judged is_enough answer }
{
    match answer {
        Ok(status) => Ok(status.is_enough()),
        Err(fault) => Err(fault),
    }
}
