//! The person at a terminal, if there is one, and what they are told.
ghost use Rattle.std.specs.Prelude.{◌≡◌, ◌<◌, ◌≤◌, ◌+◌, ◌++◌, ◌&&◌, ℕ, true, false, IfNone, IfSome, IsFalse, IsTrue, length, min};
ghost use Rattle.std.specs.Fmt.{decimal};
ghost use Rattle.s39_set.specs.declared.set_lack.SetLack.{SetLack};
ghost use Rattle.s39_set.specs.Lack.{IsLack};
ghost use Rattle.s39_set.specs.ShareSet.{IsShareSet};
ghost use Rattle.s39_reading.specs.Exponent.{exponent_of};
ghost use Rattle.s39_cli.specs.Said.{Says, asking_lines, count_line, is_attended, is_told, least_slow, line_if, listed_line, seconds_line, set_lines, shows_progress, types_mnemonics, types_value};
ghost use Rattle.s39_cli.specs.Ending.{IsTyped};

use crate::notes::{BARE, PASSPHRASE_ASKED, SECRET_ASKED};
use crate::values::{INPUT, TERMINAL};
use s39_command::{Job, Texts};
use s39_input::{Line, push_number, push_text};
use s39_reading::exponent_of;
use s39_reading::laws::shares_have_the_exponent;
use s39_set::{ShareSet, quorum_count_of};
use s39_tool::Watch;
use std::io::Write;

/// The least exponent of which a person is told how long deciphering takes.
const LEAST_SLOW: u8 = 9;

/// The greatest number of quorums that is told as a power of two. After it, only its multiples are told.
const MOST_DOUBLED: u32 = 1 << 20;

/// Said before the number of quorums.
const NUMBER: &[u8] = b"shamir: number of quorums: ";

/// Said before the greatest number that is counted.
const LEAST_NUMBER: &[u8] = b"shamir: number of quorums: at least ";

/// Which of the program's streams are terminals.
#[derive(Clone, Copy, Debug, PartialEq, Eq)]
pub struct Terminals {
    /// Whether standard input is one.
    pub input: bool,
    /// Whether standard output is one.
    pub output: bool,
    /// Whether standard error is one.
    pub errors: bool,
}

/// The person to whom messages go, if there is one. All that is said goes to one device, and it is known whether that has taken
/// all of it.
#[derive(Drop)]
pub struct Person<E> {
    device: E,
    is_whole: bool,
    terminals: Terminals,
    /// Whether the command recovers secrets without a passphrase, and without a fingerprint to tell.
    is_bare: bool,
}

impl<E: Write> Person<E> {
    /// The person at these terminals, to whom nothing has been said yet.
    pub fn new(device: E, terminals: Terminals) -> Person<E>
        ensures device { result.device ≡ device }
        ensures whole { result.is_whole ≡ true }
        ensures terminals { result.terminals ≡ terminals }
        ensures bare { result.is_bare ≡ false }
    {
        Person {
            device,
            is_whole: true,
            terminals,
            is_bare: false,
        }
    }

    /// Whether a person looks on: types the input, or sees the output or the messages.
    pub(crate) fn is_attended(&self) -> bool
        ensures { result ≡ is_attended self.now.terminals }
    {
        self.terminals.input || self.terminals.output || self.terminals.errors
    }

    /// Whether a person is asked for the value in this file: it is the first line of the input, which is a terminal, or the file
    /// is the terminal, and a person looks on.
    fn types_value(&self, file: Option<&str>) -> bool
        ensures { result ≡ types_value self.now.terminals file.entry }
    {
        match file {
            Some(name) if name == INPUT => self.terminals.input,
            Some(name) => name == TERMINAL && self.is_attended(),
            None => false,
        }
    }

    /// Asks for the values in these files that are typed, in the order in which they are read.
    pub(crate) fn ask_for(&mut self, files: Texts)
        ensures said { Says E.contents self.old self.new (asking_lines self.old.terminals files.entry) }
        ensures bare { self.new.is_bare ≡ self.old.is_bare }
    {
        let types_secret = self.types_value(files.secret);
        let types_passphrase = self.types_value(files.passphrase);
        self.say_if(types_secret, SECRET_ASKED);
        self.say_if(types_passphrase, PASSPHRASE_ASKED);
    }

    /// Whether mnemonics are typed: the input is a terminal, and the command reads mnemonics.
    pub(crate) fn types_mnemonics(&self, job: &Job) -> bool
        ensures { result ≡ types_mnemonics self.now.terminals.input job.now }
    {
        match job {
            Job::Create { .. } => false,
            _ => self.terminals.input,
        }
    }

    /// Whether random bytes would be typed: the job creates a backup, and the input is a terminal, or the file of its random bytes
    /// is one.
    pub(crate) fn types_random(&self, job: &Job) -> bool
        ensures typed { IsTrue result → IsTyped self.now.terminals.input job.now }
        ensures untyped { IsFalse result → IsTyped self.now.terminals.input job.now → ⊥ }
    {
        match job {
            Job::Create { .. } => self.terminals.input,
            Job::Resplit { random_file, .. } => *random_file == TERMINAL,
            _ => false,
        }
    }

    /// Whether a person is told that no passphrase was used.
    pub(crate) fn hears_of_none(&self) -> bool
        ensures { result ≡ is_attended self.now.terminals && self.now.is_bare }
    {
        self.is_attended() && self.is_bare
    }

    /// Keeps whether the command recovers secrets without a passphrase, and without a fingerprint to tell.
    pub(crate) fn keep(&mut self, is_bare: bool)
        ensures { self.new ≡ record self.old { is_bare = is_bare } }
    {
        self.is_bare = is_bare;
    }

    /// Says a text, in one write if the device takes it whole.
    pub(crate) fn say(&mut self, text: &[u8])
        ensures said { Says E.contents self.old self.new text.now }
        ensures bare { self.new.is_bare ≡ self.old.is_bare }
    {
        if text.is_empty() {
            return;
        }
        let is_taken = self.device.write_all(text).is_ok();
        self.is_whole = self.is_whole && is_taken;
    }

    /// Says a text if that is wanted.
    pub(crate) fn say_if(&mut self, is_wanted: bool, text: &[u8])
        ensures said { Says E.contents self.old self.new (line_if is_wanted text.now) }
        ensures bare { self.new.is_bare ≡ self.old.is_bare }
    {
        if is_wanted {
            self.say(text);
        }
    }

    /// Says a number between two short texts, in one write.
    fn say_number(&mut self, before: &[u8], number: u64, after: &[u8])
        requires { length before.now + length after.now ≤ 100 }
        ensures { Says E.contents self.old self.new (before.now ++ decimal number ++ after.now) }
    {
        let mut line = Line::new();
        push_text(&mut line, before);
        push_number(&mut line, number);
        push_text(&mut line, after);
        self.say(line.as_slice());
    }

    /// Says how many quorums a set has, and, if its exponent is high, about how long deciphering takes.
    fn say_set(&mut self, set: &ShareSet)
        requires is_set { IsShareSet set.now }
        requires some { (lack : SetLack) → ¬ IsLack set.now lack }
        ensures { Says E.contents self.old self.new (set_lines set.now) }
    {
        self.say_count(quorum_count_of(set));
        if let Some(exponent) = slow_exponent(set) {
            self.say_seconds(exponent);
        }
    }

    /// Says how many quorums there are. The greatest number stands for at least as many.
    fn say_count(&mut self, count: u64)
        ensures { (number : ℕ) → count ≡ min number u64.MAX
            → Says E.contents self.old self.new (count_line number) }
    {
        let before = if count < u64::MAX {
            NUMBER
        } else {
            LEAST_NUMBER
        };
        self.say_number(before, count, b"\n");
    }

    /// Says about how many seconds the iterations of an exponent take.
    fn say_seconds(&mut self, exponent: u8)
        requires { exponent < 16 }
        ensures { Says E.contents self.old self.new (seconds_line exponent) }
    {
        let seconds = 2u64.pow(u32::from(exponent)) / 160;
        self.say_number(
            b"shamir: deciphering a secret takes some ",
            seconds,
            b" seconds\n",
        );
    }

    /// Says how many quorums are listed.
    fn say_listed(&mut self, count: u32)
        ensures { Says E.contents self.old self.new (listed_line count) }
    {
        self.say_number(b"shamir: quorums listed: ", u64::from(count), b"\n");
    }
}

/// A person who looks on is told how much a drill has to do, and before a secret is written that no passphrase was used. How many
/// quorums are listed is said if messages go to a terminal, and the lines of the drill don't: they show how far it is, or nobody
/// sees what is said.
impl<E: Write> Watch for Person<E> {
    ghost use Rattle.s39_cli.specs.Said.{SaysCount, SaysOfNone, SaysSet};

    ghost finds = { SaysSet E.contents };

    ghost awaits = { SaysOfNone E.contents };

    ghost counts = { SaysCount E.contents };

    fn found(&mut self, set: &ShareSet) {
        if self.is_attended() {
            self.say_set(set);
        }
    }

    fn about_to_write(&mut self) {
        let is_wanted = self.hears_of_none();
        self.say_if(is_wanted, BARE);
    }

    fn listed(&mut self, count: u32) {
        if shows_progress(self.terminals) && is_told(count) {
            self.say_listed(count);
        }
    }
}

/// The exponent of a set that has a quorum, if it is high.
fn slow_exponent(set: &ShareSet) -> Option<u8>
    requires is_set { IsShareSet set.now }
    requires some { (lack : SetLack) → ¬ IsLack set.now lack }
    ensures slow { IfSome result (λ exponent. (exponent ≡ exponent_of set.now)
        × (least_slow ≤ exponent) × (exponent < 16)) }
    ensures quick { IfNone result (exponent_of set.now < least_slow) }
{
    shares_have_the_exponent();
    match exponent_of(set) {
        Ok(exponent) if exponent >= LEAST_SLOW => Some(exponent),
        _ => None,
    }
}

/// Whether messages go to a terminal, and the output doesn't.
fn shows_progress(terminals: Terminals) -> bool
    ensures { result ≡ shows_progress terminals }
{
    terminals.errors && !terminals.output
}

/// Whether it is told that so many quorums are listed: at 1, 2, 4, .. up to 1,048,576, and then at each multiple of that.
fn is_told(count: u32) -> bool
    ensures { result ≡ is_told count }
{
    if count < MOST_DOUBLED {
        count.is_power_of_two()
    } else {
        count % MOST_DOUBLED == 0
    }
}
