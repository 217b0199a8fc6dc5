//! The program: a command line, a reader and two writers.
ghost use Rattle.std.specs.Prelude.{◌≡◌, ◌≢◌, ◌≤◌, ◌⊎◌, map, false, IfNone, IfSome, IsTrue};
ghost use Rattle.clap.specs.Words.{Text};
ghost use Rattle.s39_command.specs.Command.{IsInRange};
ghost use Rattle.s39_cli.specs.Ending.{DoesDrawn, DoesJob, Ends, EndsUnread, EndsWithoutJob, IsDoneWith, OnEnd, status_in};
ghost use Rattle.s39_cli.specs.declared.values.BadValue.{BadValue};
ghost use Rattle.s39_cli.specs.Values.{Told};
ghost use Rattle.s39_cli.specs.Said.{IsSaid, IsSaidOfJob, IsSaidUnread, IsSaidWithoutJob, OnStatus, Says, is_attended, said_of_values, typed_line};
ghost use Rattle.s39_cli.specs.Untouched.{IsUntouchedBy, IsUntouchedIfRefused};
ghost use Rattle.s39_cli.specs.Work.{HasBadPassphrase};

use crate::delivery::{flushed, show_text, write_failed};
use crate::notes::{NEW_SECRET, TYPING, is_bare, tells_of_drawing};
use crate::patient::Patient;
use crate::person::Person;
use crate::random_file::{NoRandom, random_of};
use crate::telling::{REASON_BYTES, no_memory_left, report, say_of_file, tell_answer, unbegun};
use crate::values::{NoFileValue, NoValue, Secrets, Shelf, Values};
use crate::work::{NoWork, Work};
use s39_command::{BadValues, Job, NoJob, read_words};
use s39_tool::{Counting, Plan};
use std::alloc::Global;
use std::fmt::InlineText;
use std::io::{Read, Write};

pub(crate) const DONE: u8 = 0;

pub(crate) const REFUSED: u8 = 1;

pub(crate) const NO_JOB: u8 = 2;

pub(crate) const DEVICE_FAILED: u8 = 3;

pub(crate) const NO_MEMORY: u8 = 4;

/// How the program ended.
#[derive(Drop)]
pub enum Ended<R, W> {
    /// It ended with this exit status, and gives its devices back.
    With { status: u8, input: R, output: W },
    /// It ran out of memory, and its devices are gone.
    NoMemory,
}

impl<R: Drop, W: Drop> Ended<R, W> {
    /// The exit status, which is 4 if the program ran out of memory.
    pub fn status(self) -> u8
        ensures { result ≡ status_in self }
    {
        match self {
            Ended::With { status, .. } => status,
            Ended::NoMemory => NO_MEMORY,
        }
    }
}

/// Runs the command that the words give, and returns the exit status. The first word is the program's name.
///
/// | Status | When |
/// |---|---|
/// | 0 | the command is done, or help or the version was asked for and written |
/// | 1 | a refusal that isn't a device's, a drill that listed a digest mismatch or another secret than the expected one, a status with too few complete groups, or two mnemonics that fit a line of a repair |
/// | 2 | the words or their values are refused, the secret isn't hexadecimal, or random bytes would be typed |
/// | 3 | a file couldn't be opened, or a read or a write failed |
/// | 4 | the program is out of memory |
///
/// If the words name files for values, the program reads these values first: those in files of `shelf`, and then those in the
/// first lines of `input`. The file of random bytes is read once the plan is judged. Results and help go to `output`, each line as soon
/// as it is known. A fault is a line that is said to `person`, as is the text of a refused command line, and what a person at a
/// terminal is told. The program takes all its memory before it reads `input`. Only lines that hold values are read before that. If
/// messages aren't taken, the status stays.
pub fn program<S: Shelf, R: Read + Drop, W: Write + Drop, E: Write>(
    shelf: &S,
    alloc: Global,
    words: &[&str],
    input: R,
    output: W,
    person: &mut Person<E>,
) -> Ended<R, W>
    // Of readers and writers that tell their bytes.
    ensures ends { Ends (S.told shelf.now) R.remaining W.contents person.old.terminals.input
        (map (λ word. word.now) words.now) input output result }
    // Of any.
    ensures untouched { IsUntouchedIfRefused (map (λ word. word.now) words.now) result output }
    ensures said { IsSaid (S.told shelf.now) R.remaining E.contents person.old.terminals
        (map (λ word. word.now) words.now) input person.old person.new result }
{
    let call = match read_words(alloc, words) {
        Ok(call) => call,
        Err(no_job) => return without_job(no_job, input, output, person),
    };
    if person.types_random(&call.job) {
        return typed(input, output, person);
    }
    person.ask_for(call.files);
    person.keep(is_bare(&call));
    let mut input = input;
    let values = match Values::read(shelf, call.files, &mut input) {
        Ok(values) => values,
        Err(unread) => return without_value(unread, input, output, person),
    };
    let texts = values.texts(call.given);
    by_job(shelf, alloc, call.job, texts, input, output, person)
}

/// Does the job with these texts, or with the random bytes of its file once its plan is judged.
fn by_job<S: Shelf, R: Read + Drop, W: Write + Drop, E: Write>(
    shelf: &S,
    alloc: Global,
    job: Job,
    texts: Secrets,
    input: R,
    output: W,
    person: &mut Person<E>,
) -> Ended<R, W>
    requires { IsInRange job }
    ensures ends { OnEnd result (DoesDrawn (S.told shelf.now) R.remaining W.contents job.entry
        texts.entry.secret.now texts.entry.passphrase.now input output) }
    ensures untouched { IsUntouchedBy job.entry result output }
    ensures said { IsSaidOfJob R.remaining E.contents person.old.terminals person.old.is_bare job.entry
        input person.old person.new result }
{
    let Some((plan, name)) = random_file(&job) else {
        return by_texts(alloc, job, texts, input, output, person);
    };
    let _judged = match Plan::parse(plan) {
        Ok(judged) => judged,
        Err(error) => return unbegun(NoWork::Plan(error), input, output, person),
    };
    let random = match random_of(alloc, shelf, name) {
        Ok(random) => random,
        Err(NoRandom::Memory) => return no_memory_left(person),
        Err(NoRandom::Failed(error)) => {
            let cause = NoValue::Failed(error);
            return without_value(NoFileValue { name, cause }, input, output, person);
        }
    };
    let texts = Secrets {
        secret: random.bytes.as_slice(),
        passphrase: texts.passphrase,
    };
    by_texts(alloc, job, texts, input, output, person)
}

/// The plan and the file of random bytes of a job that takes some from a file.
fn random_file<'a>(job: &Job<'a>) -> Option<(&'a str, &'a str)>
    ensures some { IfSome result (λ found. job.now ≡ Job.Resplit found.0 found.1) }
    ensures none { IfNone result ((told : Told) (secret : Text) → IsDoneWith told job.now secret secret) }
{
    match job {
        Job::Resplit { plan, random_file } => Some((*plan, *random_file)),
        _ => None,
    }
}

/// Does the job with these texts. Its output goes out line by line: each as soon as it is known, and in one piece.
fn by_texts<R: Read + Drop, W: Write + Drop, E: Write>(
    alloc: Global,
    job: Job,
    texts: Secrets,
    input: R,
    output: W,
    person: &mut Person<E>,
) -> Ended<R, W>
    requires { IsInRange job }
    ensures ends { OnEnd result (DoesJob R.remaining W.contents job.entry texts.entry.secret.now
        texts.entry.passphrase.now input output) }
    ensures untouched { IsUntouchedBy job.entry result output }
    ensures said { IsSaidOfJob R.remaining E.contents person.old.terminals person.old.is_bare job.entry
        input person.old person.new result }
{
    let types = person.types_mnemonics(&job);
    let work = match Work::of(alloc, job, texts) {
        Ok(work) => work,
        Err(no_work) => return unbegun(no_work, input, output, person),
    };
    let tells_of_none = work.tells_last(person.hears_of_none());
    let is_asked = asks(types, &work);
    person.say_if(is_asked, TYPING);
    let mut reader = Counting::new(input);
    let mut writer = Counting::new(Patient::new(output));
    let answer = work.run(&mut reader, &mut writer, person);
    let (answer, output) = flushed(answer, writer.into_inner());
    let status = tell_answer(answer, tells_of_none, person);
    Ended::With {
        status,
        input: reader.into_inner(),
        output,
    }
}

/// Whether mnemonics are about to be typed.
fn asks(types: bool, work: &Work) -> bool
    ensures asked { (result ≡ types) ⊎ ((result ≡ false) × HasBadPassphrase work.now) }
    ensures begun { IsTrue result → HasBadPassphrase work.now → ⊥ }
{
    types && work.begins()
}

/// Answers words that give no job.
fn without_job<R: Drop, W: Write + Drop, E: Write>(
    no_job: NoJob,
    input: R,
    output: W,
    person: &mut Person<E>,
) -> Ended<R, W>
    ensures ends { EndsWithoutJob W.contents no_job input output result }
    ensures said { IsSaidWithoutJob E.contents (is_attended person.old.terminals) no_job
        person.old person.new result }
{
    match no_job {
        NoJob::Help(text) => {
            let (is_whole, output) = show_text(text.as_str(), output);
            let status = if is_whole {
                DONE
            } else {
                report(write_failed(), person)
            };
            Ended::With {
                status,
                input,
                output,
            }
        }
        NoJob::Refused(text) => {
            person.say(text.as_bytes());
            Ended::With {
                status: NO_JOB,
                input,
                output,
            }
        }
        NoJob::Values(bad) => {
            refuse_values(bad, person);
            Ended::With {
                status: NO_JOB,
                input,
                output,
            }
        }
        NoJob::Memory => no_memory_left(person),
    }
}

/// Says what is wrong with the values of words, and how to draw a secret if a person is told.
fn refuse_values<E: Write>(bad: BadValues, person: &mut Person<E>)
    ensures { Says E.contents person.old person.new
        (said_of_values (is_attended person.old.terminals) bad) }
{
    let tells = tells_of_drawing(person.is_attended(), bad);
    person.say(bad.text().as_bytes());
    person.say_if(tells, NEW_SECRET);
}

/// Says why a value isn't read.
fn without_value<R: Drop, W: Drop, E: Write>(
    unread: NoFileValue,
    input: R,
    output: W,
    person: &mut Person<E>,
) -> Ended<R, W>
    ensures ends { EndsUnread ((bad : BadValue) × (unread.entry.cause ≡ NoValue.Bad bad))
        input output result }
    ensures bad { (bad : BadValue) → unread.entry.cause ≡ NoValue.Bad bad
        → OnEnd result (λ status read_to written_to. status ≡ 2) }
    ensures failed { ((bad : BadValue) → unread.entry.cause ≢ NoValue.Bad bad)
        → OnEnd result (λ status read_to written_to. status ≡ 3) }
    ensures not_begun { OnStatus result (λ status. 2 ≤ status) }
    ensures said { IsSaidUnread E.contents (λ bad. unread.entry.cause ≡ NoValue.Bad bad)
        unread.entry.name.now person.old person.new result }
{
    let NoFileValue { name, cause } = unread;
    let status = match cause {
        NoValue::Bad(bad) => {
            say_of_file(name, bad.reason(), person);
            NO_JOB
        }
        NoValue::Failed(error) => {
            let reason: InlineText<REASON_BYTES> = InlineText::of(error);
            say_of_file(name, reason.as_str(), person);
            DEVICE_FAILED
        }
    };
    Ended::With {
        status,
        input,
        output,
    }
}

/// Says that random bytes aren't typed.
fn typed<R: Drop, W: Drop, E: Write>(input: R, output: W, person: &mut Person<E>) -> Ended<R, W>
    ensures ends { result ≡ Ended.With 2 input output }
    ensures said { Says E.contents person.old person.new typed_line }
{
    person.say(b"shamir: random bytes aren't typed: draw them, as with head -c N /dev/urandom\n");
    Ended::With {
        status: NO_JOB,
        input,
        output,
    }
}
