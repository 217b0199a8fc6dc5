//! Values of a command that stand in files or in the first lines of the input.
ghost use Rattle.std.specs.Prelude.{◌≡◌, ◌≢◌, Err, None, Some, IfErr, IfOk, IsFalse, IsTrue, OnErr, option_map};
ghost use Rattle.s39_command.specs.Command.{text_in};
ghost use Rattle.s39_cli.specs.Said.{IsNamedIn};
ghost use Rattle.s39_cli.specs.Values.{HasBad, HoldsBad, IsBadFile, IsInFile, IsInput, IsMnemonic, IsPart, IsValueIn, IsValueOf};
ghost use Rattle.s39_cli.specs.Values.{LacksValue, TakesByte, TakesValue, TakesValues, end_in, text_of, without_line_end};

use arrayvec::ArrayVec;
use s39_command::Texts;
use s39_words::parse;
use std::io::{ErrorKind, Read};
use std::rt::Files;
use std::{fs, io};

/// The most bytes of a value.
const MOST: usize = 1024;

/// Room for a value, for the end of its line, and for one more byte, which shows that the value is too long.
const ROOM: usize = 1027;

/// The name that stands for the first line of the input.
pub(crate) const INPUT: &str = "-";

/// The name of the terminal from which a person runs the program.
pub(crate) const TERMINAL: &str = "/dev/tty";

/// Where a value ends.
#[derive(Clone, Copy)]
enum Until {
    /// At the end of the bytes.
    End,
    /// At the end of the first line.
    LineEnd,
}

/// A value that was read.
type Value = ArrayVec<u8, ROOM>;

/// Why a text that was read is no value.
#[derive(Clone, Copy)]
pub(crate) enum BadValue {
    /// It has more than 1,024 bytes.
    TooLong,
    /// It is a mnemonic.
    Mnemonic,
}

impl BadValue {
    ghost use Rattle.s39_cli.specs.Said.{reason_of};

    /// What is said of it.
    pub(crate) fn reason(self) -> &'static str
        ensures { result.now ≡ reason_of self }
    {
        match self {
            BadValue::TooLong => "the value has more than 1024 bytes",
            BadValue::Mnemonic => "this is a mnemonic, and neither a secret nor a passphrase",
        }
    }
}

/// Why a value isn't read.
#[derive(Drop)]
pub(crate) enum NoValue {
    /// What was read is no value.
    Bad(BadValue),
    /// An open or a read failed.
    Failed(io::Error),
}

impl From<io::Error> for NoValue {
    ghost use Rattle.s39_cli.specs.declared.values.NoValue.TheVariants.{Failed};

    ghost from_gives = { λ error no_value. no_value ≡ Failed error };

    fn from(error: io::Error) -> NoValue {
        NoValue::Failed(error)
    }
}

/// The next byte, or `None` at the end. A read that the system interrupted is tried again.
pub(crate) fn next_byte<R: Read>(input: &mut R) -> io::Result<Option<u8>>
    ensures byte { IfOk result (TakesByte (R.remaining input.old) (R.remaining input.new)) }
{
    for _ in 0..u64::MAX {
        let mut byte = [0];
        match input.read(&mut byte) {
            Ok(0) => return Ok(None),
            Ok(_) => return Ok(Some(byte[0])),
            Err(error) if error.kind() == ErrorKind::Interrupted => {}
            Err(error) => return Err(error),
        }
    }
    Err(io::Error::from(ErrorKind::Interrupted))
}

/// The bytes of the part, as many as there is room for.
fn part<R: Read>(input: &mut R, until: Until) -> io::Result<Value>
    ensures part { IfOk result (λ bytes. IsPart until 1027 (R.remaining input.old)
        (R.remaining input.new) bytes.items) }
{
    let mut bytes = ArrayVec::new();
    for _ in 0..ROOM {
        let Some(byte) = next_byte(input)? else {
            break;
        };
        bytes.push(byte);
        if let (Until::LineEnd, b'\n') = (until, byte) {
            break;
        }
    }
    Ok(bytes)
}

/// The bytes without a line feed at their end, and without a carriage return before it.
fn without_line_end(bytes: Value) -> Value
    ensures { result.items ≡ without_line_end bytes.items }
{
    let mut bytes = bytes;
    if bytes.last() == Some(&b'\n') {
        bytes.pop();
        if bytes.last() == Some(&b'\r') {
            bytes.pop();
        }
    }
    bytes
}

/// Whether the text is a mnemonic.
#[tactic(auto, using(crate::proofs::ReadParts::refused_is_no_mnemonic))]
fn is_mnemonic(text: &[u8]) -> bool
    ensures mnemonic { IsTrue result → IsMnemonic text.now }
    ensures other { IsFalse result → IsMnemonic text.now → ⊥ }
{
    match parse(text) {
        Ok(_) => true,
        Err(_) => false,
    }
}

/// The value that stands in the part.
fn value_in<R: Read>(input: &mut R, until: Until) -> Result<Value, NoValue>
    ensures value { IfOk result (λ value. IsValueIn until (R.remaining input.old)
        (R.remaining input.new) value.items) }
    ensures bad { (bad : BadValue) → result ≡ Err (NoValue.Bad bad)
        → HoldsBad bad until (R.remaining input.old) }
{
    let value = without_line_end(part(input, until)?);
    if value.len() > MOST {
        return Err(NoValue::Bad(BadValue::TooLong));
    }
    if is_mnemonic(value.as_slice()) {
        return Err(NoValue::Bad(BadValue::Mnemonic));
    }
    Ok(value)
}

/// Something that opens files by their names, as the system does.
pub trait Shelf {
    ghost use Rattle.std.specs.Prelude.{◌≡◌, ℕ, List, Option, None, Some, IfOk, IfSome};

    /// An opened file.
    type File: Read + Drop;

    // The bytes of the file with a name, or `None` if contracts can't name them.
    ghost told: { Self → List ℕ → Option (List ℕ) } = { λ shelf name. None };

    /// Opens a file for reading.
    ///
    /// # Errors
    /// It fails if there is no such file, or if the file can't be opened.
    fn open(&self, name: &str) -> io::Result<Self::File>
        ensures { IfOk result (λ file. IfSome (told self.now name.now)
            (λ bytes. Self.File.remaining file ≡ Some bytes)) };
}

/// The files of the system.
#[derive(Drop)]
pub struct SystemFiles<'a, F> {
    files: &'a F,
}

impl<'a, F: Files> SystemFiles<'a, F> {
    /// The files that this runtime reaches.
    pub fn new(files: &'a F) -> SystemFiles<'a, F> {
        SystemFiles { files }
    }
}

impl<'a, F: Files> Shelf for SystemFiles<'a, F> {
    type File = F::File;

    fn open(&self, name: &str) -> io::Result<F::File> {
        fs::open(self.files, name)
    }
}

/// Why the value in the file of this name isn't read.
#[derive(Drop)]
pub(crate) struct NoFileValue<'a> {
    pub(crate) name: &'a str,
    pub(crate) cause: NoValue,
}

/// Where the value in the file of this name ends: with the line that is typed, if the file is the terminal.
fn end_in(name: &str) -> Until
    ensures { result ≡ end_in name.now }
{
    if name == TERMINAL {
        Until::LineEnd
    } else {
        Until::End
    }
}

/// The value in the file of this name.
fn value_of_file<S: Shelf>(shelf: &S, name: &str) -> Result<Value, NoValue>
    ensures value { IfOk result (λ value. IsValueOf (S.told shelf.now) name.now value.items) }
    ensures bad { (bad : BadValue) → result ≡ Err (NoValue.Bad bad)
        → HoldsBad bad (end_in name.now) (S.told shelf.now name.now) }
{
    let mut file = shelf.open(name)?;
    value_in(&mut file, end_in(name))
}

/// The value in the file of this name, if there is a name, and it isn't that of the input.
fn in_file<'a, S: Shelf>(shelf: &S, name: Option<&'a str>) -> Result<Option<Value>, NoFileValue<'a>>
    ensures value { IfOk result (λ value. IsInFile (S.told shelf.now) name.entry
        (option_map (λ held. held.items) value)) }
    ensures failed { OnErr result (name.entry ≢ None) }
    ensures named { IfErr result (λ unread. text_in name.entry ≡ Some unread.name.now) }
    ensures bad { IfErr result (λ unread. (bad : BadValue) → unread.cause ≡ NoValue.Bad bad
        → IsBadFile bad (S.told shelf.now) name.entry) }
{
    let name = match name {
        Some(name) if name != INPUT => name,
        _ => return Ok(None),
    };
    match value_of_file(shelf, name) {
        Ok(value) => Ok(Some(value)),
        Err(cause) => Err(NoFileValue { name, cause }),
    }
}

/// The value in the first line of the input, if this is the input's name, and else the one in the file.
fn in_line<'a, S: Shelf, R: Read>(
    shelf: &S,
    input: &mut R,
    name: Option<&'a str>,
    in_file: Option<Value>,
) -> Result<Option<Value>, NoFileValue<'a>>
    requires { IsInFile (S.told shelf.now) name (option_map (λ held. held.items) in_file) }
    ensures value { IfOk result (λ value. TakesValue (S.told shelf.now) R.remaining name.entry
        (option_map (λ held. held.items) value) input.old input.new) }
    ensures failed { OnErr result (IsInput name.entry) }
    ensures named { IfErr result (λ unread. text_in name.entry ≡ Some unread.name.now) }
    ensures bad { IfErr result (λ unread. (bad : BadValue) → unread.cause ≡ NoValue.Bad bad
        → HoldsBad bad Until.LineEnd (R.remaining input.old)) }
{
    let name = match name {
        Some(name) if name == INPUT => name,
        _ => return Ok(in_file),
    };
    match value_in(input, Until::LineEnd) {
        Ok(value) => Ok(Some(value)),
        Err(cause) => Err(NoFileValue { name, cause }),
    }
}

/// The text that was read, or else the given one, or the empty one if there is none.
fn text_of<'a>(read: &'a Option<Value>, given: Option<&'a str>) -> &'a [u8]
    ensures { result.now ≡ text_of (option_map (λ held. held.items) read.now) given.entry }
{
    match (read, given) {
        (Some(value), _) => value.as_slice(),
        (None, Some(text)) => text.as_bytes(),
        (None, None) => b"",
    }
}

/// The secret and the passphrase of a command, as texts.
#[derive(Clone, Copy)]
pub(crate) struct Secrets<'a> {
    pub(crate) secret: &'a [u8],
    pub(crate) passphrase: &'a [u8],
}

/// The values of a command that aren't in its words.
#[derive(Drop)]
pub(crate) struct Values {
    secret: Option<Value>,
    passphrase: Option<Value>,
}

impl Values {
    /// Reads them: those in files first, and then those in the first lines of the input, the secret before the passphrase.
    pub(crate) fn read<'a, S: Shelf, R: Read>(
        shelf: &S,
        files: Texts<'a>,
        input: &mut R,
    ) -> Result<Values, NoFileValue<'a>>
        ensures values { IfOk result (λ values. TakesValues (S.told shelf.now) R.remaining files.entry
            (option_map (λ held. held.items) values.secret)
            (option_map (λ held. held.items) values.passphrase) input.old input.new) }
        ensures failed { OnErr result (LacksValue files.entry input.old input.new) }
        ensures named { IfErr result (λ unread. IsNamedIn files.entry unread.name.now) }
        ensures bad { IfErr result (λ unread. (bad : BadValue) → unread.cause ≡ NoValue.Bad bad
            → HasBad (S.told shelf.now) R.remaining bad files.entry input.old) }
    {
        let secret = in_file(shelf, files.secret)?;
        let passphrase = in_file(shelf, files.passphrase)?;
        Ok(Values {
            secret: in_line(shelf, input, files.secret, secret)?,
            passphrase: in_line(shelf, input, files.passphrase, passphrase)?,
        })
    }

    /// The texts of the values that were read, and else those that are given.
    pub(crate) fn texts<'a>(&'a self, given: Texts<'a>) -> Secrets<'a>
        ensures secret { result.secret.now ≡ text_of (option_map (λ held. held.items) self.now.secret)
            given.entry.secret }
        ensures passphrase { result.passphrase.now
            ≡ text_of (option_map (λ held. held.items) self.now.passphrase) given.entry.passphrase }
    {
        Secrets {
            secret: text_of(&self.secret, given.secret),
            passphrase: text_of(&self.passphrase, given.passphrase),
        }
    }
}
