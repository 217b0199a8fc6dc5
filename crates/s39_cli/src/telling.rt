//! What is said of a refusal, and the exit status that goes with it.
ghost use Rattle.std.specs.Prelude.{◌≡◌, ◌≢◌};
ghost use Rattle.std.specs.IoError.{error_kind};
ghost use Rattle.s39_cli.specs.Ending.{EndsUnbegun};
ghost use Rattle.s39_cli.specs.Outcome.{status_of, status_of_refusal};
ghost use Rattle.s39_cli.specs.Said.{IsSaidUnbegun, Says, SaysAnswer, SaysFormless, SaysMessage, file_line, is_attended, memory_line, no_text_line};

use crate::notes::{BARE, PLAN_FORM};
use crate::person::Person;
use crate::runner::{DEVICE_FAILED, DONE, Ended, NO_JOB, NO_MEMORY, REFUSED};
use crate::work::NoWork;
use s39_refusal::Cause;
use s39_text::FaultText;
use s39_tool::{Fault, PlanError, Refusal};
use std::fmt::InlineText;
use std::io;
use std::io::{ErrorKind, Write};

/// The most bytes of a refusal's message: a line's number of 20 digits, a number of three, and a text of 64 bytes among 17 others.
const MESSAGE_BYTES: usize = 104;

/// The most bytes of a file's name in a message, which are as many as the system takes.
const NAME_BYTES: usize = 4095;

/// The most bytes that say why a file's value isn't read.
pub(crate) const REASON_BYTES: usize = 128;

/// More than the most bytes of a message that names a file.
const FILE_BYTES: usize = NAME_BYTES + REASON_BYTES + 12;

/// Says why a command can't be begun.
pub(crate) fn unbegun<R: Drop, W: Drop, E: Write>(
    no_work: NoWork,
    input: R,
    output: W,
    person: &mut Person<E>,
) -> Ended<R, W>
    ensures ends { EndsUnbegun no_work input output result }
    ensures said { IsSaidUnbegun E.contents (is_attended person.old.terminals) no_work
        person.old person.new result }
{
    let status = match no_work {
        NoWork::Secret => {
            person.say(b"shamir: master secret isn't hexadecimal\n");
            NO_JOB
        }
        NoWork::Plan(error) => refuse_plan(error, person),
        NoWork::Cursor(error) => refuse(error.cause(), person),
        NoWork::Fingerprint(error) => refuse(error.cause(), person),
        NoWork::Names(error) => refuse(error.cause(), person),
        NoWork::Memory => return no_memory_left(person),
    };
    Ended::With {
        status,
        input,
        output,
    }
}

/// Says why a text gives no plan, and to a person which form a plan has, if this text has another. It gives the exit status.
fn refuse_plan<E: Write>(error: PlanError, person: &mut Person<E>) -> u8
    ensures status { result ≡ 1 }
    ensures formless { error ≡ PlanError.BadPlan
        → SaysFormless E.contents (is_attended person.old.terminals) person.old person.new }
    ensures formed { error ≢ PlanError.BadPlan → SaysMessage E.contents person.old person.new }
{
    let is_attended = person.is_attended();
    let status = refuse(error.cause(), person);
    if error == PlanError::BadPlan {
        person.say_if(is_attended, PLAN_FORM);
    }
    status
}

/// Says why a text of the command line gives nothing, and gives the exit status.
fn refuse<E: Write>(cause: Cause, person: &mut Person<E>) -> u8
    ensures status { result ≡ 1 }
    ensures said { SaysMessage E.contents person.old person.new }
{
    say_fault(None, cause, person);
    REFUSED
}

/// Says a refusal, at its line if there is one, in one write.
fn say_fault<E: Write>(line: Option<u64>, cause: Cause, person: &mut Person<E>)
    ensures { SaysMessage E.contents person.old person.new }
{
    let text: InlineText<MESSAGE_BYTES> = InlineText::of(format_args!(
        "{}\n",
        FaultText::of(line, cause)
    ));
    person.say(text.as_str().as_bytes());
}

/// Says why the value of a file isn't read, in one write. A longer name or reason is cut, and then ends in dots.
pub(crate) fn say_of_file<E: Write>(name: &str, reason: &str, person: &mut Person<E>)
    ensures { Says E.contents person.old person.new (file_line name.now reason.now) }
{
    let text: InlineText<FILE_BYTES> = InlineText::new()
        .and_str("shamir: ", 8)
        .and_str(name, NAME_BYTES)
        .and_str(": ", 2)
        .and_str(reason, REASON_BYTES)
        .and_str("\n", 1);
    person.say(text.as_str().as_bytes());
}

/// Says what a command answered: its fault, or if that is wanted, that no passphrase was used. It gives the exit status.
pub(crate) fn tell_answer<E: Write>(
    answer: Result<bool, Fault>,
    tells_of_none: bool,
    person: &mut Person<E>,
) -> u8
    ensures status { result ≡ status_of answer }
    ensures said { SaysAnswer E.contents tells_of_none answer person.old person.new }
{
    match answer {
        Ok(is_well) => {
            person.say_if(tells_of_none, BARE);
            if is_well { DONE } else { REFUSED }
        }
        Err(fault) => report(fault, person),
    }
}

/// Says the fault of a run, and gives the exit status.
pub(crate) fn report<E: Write>(fault: Fault, person: &mut Person<E>) -> u8
    ensures status { result ≡ status_of_refusal fault.refusal }
    ensures said { SaysMessage E.contents person.old person.new }
{
    say_fault(fault.line, fault.refusal.cause(), person);
    match fault.refusal {
        Refusal::Device(_) => DEVICE_FAILED,
        _ => REFUSED,
    }
}

/// Reports why the arguments can't be read as words, and returns the exit status: 4 if there is no memory for them, and 2 if
/// they aren't UTF-8.
pub fn no_words<E: Write>(error: &io::Error, person: &mut Person<E>) -> u8
    ensures memory { error_kind error.now ≡ ErrorKind.OutOfMemory → result ≡ 4 }
    ensures other { error_kind error.now ≢ ErrorKind.OutOfMemory → result ≡ 2 }
    ensures memory_said { error_kind error.now ≡ ErrorKind.OutOfMemory
        → Says E.contents person.old person.new memory_line }
    ensures other_said { error_kind error.now ≢ ErrorKind.OutOfMemory
        → Says E.contents person.old person.new no_text_line }
{
    if error.kind() == ErrorKind::OutOfMemory {
        return no_memory(person);
    }
    person.say(b"shamir: the arguments aren't UTF-8\n");
    NO_JOB
}

/// Says that there is no memory.
pub(crate) fn no_memory_left<R, W, E: Write>(person: &mut Person<E>) -> Ended<R, W>
    ensures ends { result ≡ Ended.NoMemory }
    ensures said { Says E.contents person.old person.new memory_line }
{
    no_memory(person);
    Ended::NoMemory
}

/// Says that there is no memory, without taking any, and gives the exit status.
fn no_memory<E: Write>(person: &mut Person<E>) -> u8
    ensures status { result ≡ 4 }
    ensures said { Says E.contents person.old person.new memory_line }
{
    person.say(b"shamir: out of memory\n");
    NO_MEMORY
}
