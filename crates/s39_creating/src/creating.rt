//! The command `create`: the mnemonics of a backup that is created from a secret and random bytes.
ghost use Rattle.std.specs.Prelude.{◌≡◌, ◌≢◌, ◌+◌, ◌<◌, ◌≤◌, All, ℕ, List, [], length, slice_index_or, Err, IfOk, IfErr};
ghost use Rattle.std.specs.List.{AllZip};
ghost use Rattle.s39_words.specs.Printing.{IsPrinted};
ghost use Rattle.s39_words.specs.Share.{IsShare};
ghost use Rattle.s39_set.specs.Names.{most_names};
ghost use Rattle.s39_backup.specs.Asking.{asked_of};
ghost use Rattle.s39_creating.specs.declared.creating.TheConstants.{ROOM};
ghost use Rattle.s39_input.specs.Create.{ArePrintedLines, IsCreateOutput};
ghost use Rattle.s39_creating.specs.Reissue.{AreWritten};
ghost use Rattle.s39_creating.specs.Writing.{HasRead};
ghost use Rattle.s39_input.specs.Device.{failure_of};
ghost use Rattle.s39_input.specs.Fault.{fault_of};
ghost use Rattle.s39_input.specs.Output.{WritesText};
ghost use Rattle.s39_input.specs.Slices.{IsInFront, Puts};
ghost use Rattle.s39_input.specs.Input.{ended_line, lines_in, whole};
ghost use Rattle.s39_kdf.specs.declared.limits.BadPassphrase.{BadPassphrase};
ghost use Rattle.s39_kdf.specs.declared.limits.BadSecretLength.{BadSecretLength};
ghost use Rattle.s39_input.specs.Runs.{OfInput, Runs};

use crate::laws::each_mnemonic_is_a_line;
use arrayvec::ArrayVec;
use s39_backup::{Created, Options, Plan, create};
use s39_input::{
    Counting, DeviceFailure, Fault, Line, NoOutput, PIECE, Refusal, TooShort, WriteFailed,
    WrittenLines, line_of, put_lines, write_lines,
};
use s39_kdf::{check_passphrase, check_secret};
use s39_words::laws::{every_share_has_a_printed_form, one_printed_form};
use s39_words::{Share, print};
use std::io::{Read, Write};

/// The most random bytes that a backup takes.
pub(crate) const MAX_BACKUP_RANDOM_BYTES: usize = 32_574;

/// How many bytes of an input are kept: one more than a backup takes at most.
const ROOM: usize = MAX_BACKUP_RANDOM_BYTES + 1;

type Random = ArrayVec<u8, ROOM>;

/// A read failed.
#[derive(Clone, Copy)]
struct ReadFailed;

impl From<ReadFailed> for Fault {
    ghost use Rattle.s39_input.specs.Fault.{fault_of};
    ghost use Rattle.s39_input.specs.declared.fault.Refusal.TheVariants.{Device};
    ghost use Rattle.s39_input.specs.declared.fault.DeviceFailure.TheVariants.{Read as ReadFails};

    ghost from_gives = { λ failed fault. fault ≡ fault_of (Device ReadFails) };

    fn from(_failed: ReadFailed) -> Fault {
        Fault::from(Refusal::Device(DeviceFailure::Read))
    }
}

/// Creates a backup of a secret, and writes its mnemonics, one on each line, by group, then member (SLIP-0039, "Format
/// of the share mnemonic"). The input gives the random bytes, exactly as many as `Plan::random_needed` says.
/// `s39_backup::create` says in which order it uses them.
///
/// The first error that applies is returned, and then nothing is written:
///
/// - `Passphrase` if a byte of the passphrase isn't printable ASCII, before anything is read;
/// - `SecretLength` if the secret has an odd number of bytes, fewer than 16, or more than 128, before anything is read;
/// - `RandomLength` if more bytes come than are needed;
/// - `Device(Read)` if a read fails before one byte more than needed has come;
/// - `RandomLength` if the input ends before all needed bytes have come.
///
/// If a write fails or takes no byte, the fault is `Device(Write)`, and a beginning of the mnemonics is written. The
/// caller keeps both `failures()` below `u64::MAX`.
///
/// ```rust
/// let plan = Plan::parse("1of1")?;
/// let secret = *b"\xbb\x54\xaa\xc4\xb8\x9d\xc8\x68\xba\x37\xd9\xcc\x21\xb2\xce\xce";
/// let options = Options {
///     exponent: 0,
///     extendable: false,
/// };
/// let mut input = Counting::new(b"\x1f\x09".as_slice());
/// let mut text = Vec::new(rt.alloc());
/// let mut output = Counting::new(&mut text);
/// run_create(&plan, &secret, b"TREZOR", options, &mut input, &mut output)?;
/// assert!(rt; text.starts_with(b"duckling enlarge academic academic agency "));
/// ```
pub fn run_create<R: Read, W: Write>(
    plan: &Plan,
    secret: &[u8],
    passphrase: &[u8],
    options: Options,
    input: &mut Counting<R>,
    output: &mut Counting<W>,
) -> Result<(), Fault>
    requires readable { input.old.failures < u64.MAX }
    requires writable { output.old.failures < u64.MAX }
    ensures runs { Runs R.remaining W.contents
        (IsCreateOutput (asked_of plan.now secret.now passphrase.now options))
        input.old input.new output.old output.new result }
    // Of any devices.
    ensures untouched { IfErr result (λ fault.
        fault.refusal ≢ Refusal.Device DeviceFailure.Write → output.new ≡ output.old) }
    ensures unread { (bad : BadPassphrase)
        → result ≡ Err (fault_of (Refusal.Passphrase bad)) → input.new ≡ input.old }
    ensures unread_of_a_bad_secret { (bad : BadSecretLength)
        → result ≡ Err (fault_of (Refusal.SecretLength bad)) → input.new ≡ input.old }
{
    check_passphrase(passphrase)?;
    check_secret(secret)?;
    let needed = plan.random_needed(secret.len());
    let random = read_up_to(input, needed + 1)?;
    let mut created = Created::new();
    create(plan, secret, passphrase, options, &random, &mut created)?;
    let shares = created.shares();
    write_mnemonics(output, shares)?;
    Ok(())
}

/// Creates a backup of a secret, and puts the text that `run_create` writes for these random bytes at the front of
/// `text`: the mnemonics by group, then member, each followed by a line feed. It returns the length of that text in
/// bytes, and the number of mnemonics. The bytes of `text` after it are unchanged.
///
/// The first error that applies is returned, and then `text` is unchanged:
///
/// - `Passphrase` if a byte of the passphrase isn't printable ASCII;
/// - `SecretLength` if the secret has an odd number of bytes, fewer than 16, or more than 128;
/// - `RandomLength` if there are more or fewer random bytes than `Plan::random_needed` says;
/// - `TooShort`, with the number of bytes needed, if the text doesn't fit.
///
/// ```rust
/// let plan = Plan::parse("1of1")?;
/// let secret = *b"\xbb\x54\xaa\xc4\xb8\x9d\xc8\x68\xba\x37\xd9\xcc\x21\xb2\xce\xce";
/// let options = Options {
///     exponent: 0,
///     extendable: false,
/// };
/// let random = b"\x1f\x09";
/// let mut text = [0; 200];
/// let put = create_lines(&plan, &secret, b"TREZOR", options, random, &mut text)?;
/// assert_eq!(rt; (put.written, put.lines), (146, 1));
/// assert!(rt; text.starts_with(b"duckling enlarge academic academic agency "));
/// ```
pub fn create_lines(
    plan: &Plan,
    secret: &[u8],
    passphrase: &[u8],
    options: Options,
    random: &[u8],
    text: &mut [u8],
) -> Result<WrittenLines, NoOutput>
    ensures { Puts (IsCreateOutput (asked_of plan.now secret.now passphrase.now options)
        (whole random.now)) text.old text.new result }
{
    let mut created = Created::new();
    match create(plan, secret, passphrase, options, random, &mut created) {
        Ok(()) => Ok(put_mnemonics(created.shares(), text)?),
        Err(error) => Err(NoOutput::Refused(Fault::from(error))),
    }
}

/// The first bytes of an input, at most `limit`, by as few reads as the device gives them in.
fn read_up_to<R: Read>(input: &mut Counting<R>, limit: usize) -> Result<Random, ReadFailed>
    requires readable { input.old.failures < u64.MAX }
    requires room { limit ≤ ROOM }
    ensures read { OfInput R.remaining input.old input.new
        (λ input. HasRead limit input result) }
    ensures failures { input.new.failures ≡ input.old.failures + failure_of result }
{
    let mut random = Random::new();
    let mut piece = [0; PIECE];
    'reads: while random.len() < limit {
        let asked = PIECE.min(limit - random.len());
        match input.read(&mut piece[..asked]) {
            Ok(0) => return Ok(random),
            Ok(count) => {
                let Ok(()) = random.try_extend_from_slice(&piece[..count]) else {
                    unreachable!();
                };
            }
            Err(_) => return Err(ReadFailed),
        }
    }
    Ok(random)
}

/// Writes the mnemonics of shares, one a line.
pub(crate) fn write_mnemonics<W: Write>(
    output: &mut Counting<W>,
    shares: &[Share],
) -> Result<(), WriteFailed>
    requires writable { output.old.failures < u64.MAX }
    requires are_shares { All IsShare shares.now }
    requires few { length shares.now ≤ most_names }
    ensures { (text : List ℕ) × ArePrintedLines shares.now text
        × WritesText W.contents output.old text result output.new }
{
    every_share_has_a_printed_form();
    let count = shares.len() as u16;
    write_lines(output, count, &|index| mnemonic_line(shares, index))
}

/// The line of the mnemonic of a share.
fn mnemonic_line(shares: &[Share], index: u16) -> Line
    requires { index < length shares.now }
    ensures { (lines : List (List ℕ)) → AllZip IsPrinted lines shares.now
        → result.items ≡ ended_line (slice_index_or lines index []) }
{
    one_printed_form();
    line_of(&print(&shares[usize::from(index)]))
}

/// Puts the mnemonics of the shares that an answer has at the front of a slice.
pub(crate) fn put_answer(
    answer: &Result<Created, Fault>,
    text: &mut [u8],
) -> Result<WrittenLines, NoOutput>
    ensures { Puts (AreWritten answer.now) text.old text.new result }
{
    match answer {
        Ok(created) => Ok(put_mnemonics(created.shares(), text)?),
        Err(fault) => Err(NoOutput::Refused(*fault)),
    }
}

/// Puts the mnemonics of shares at the front of a slice, each followed by a line feed, if they fit.
fn put_mnemonics(shares: &[Share], text: &mut [u8]) -> Result<WrittenLines, TooShort>
    requires are_shares { All IsShare shares.now }
    requires few { length shares.now ≤ most_names }
    ensures put { IfOk result (λ put. (lines : List ℕ) × ArePrintedLines shares.now lines
        × IsInFront lines text.old text.new × (put.written ≡ length lines)
        × (put.lines ≡ lines_in lines)) }
    ensures short { IfErr result (λ short. (lines : List ℕ) × ArePrintedLines shares.now lines
        × (short.needed ≡ length lines) × (length text.old < length lines)
        × (text.new ≡ text.old)) }
{
    every_share_has_a_printed_form();
    each_mnemonic_is_a_line();
    let count = shares.len() as u16;
    let written = put_lines(text, count, &|index| mnemonic_line(shares, index))?;
    Ok(WrittenLines {
        written,
        lines: shares.len(),
    })
}
