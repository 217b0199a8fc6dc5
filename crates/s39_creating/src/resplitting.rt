//! The command `resplit`: mnemonics of a new backup, in which the encrypted secret of another is split anew. And the same for an
//! encrypted secret that the caller has.
ghost use Rattle.std.specs.Prelude.{◌≡◌, ◌≢◌, ◌<◌, IfErr};
ghost use Rattle.s39_input.specs.Input.{whole};
ghost use Rattle.s39_input.specs.Runs.{Runs};
ghost use Rattle.s39_input.specs.Slices.{Puts};
ghost use Rattle.s39_creating.specs.Resplit.{AreFromEncrypted, IsOutputFromEncrypted, IsResplitOutput, IsSplitFrom, IsSplitOf, ResplitsCreated};

use crate::creating::{put_answer, write_mnemonics};
use crate::resplit_laws::created_backups_are_split_anew;
use s39_backup::{Created, Plan, create_from_encrypted, resplit};
use s39_input::{
    Counting, DeviceFailure, Fault, NoOutput, Refusal, WrittenLines, read_set, set_in,
};
use s39_kdf::{Params, check_secret};
use s39_set::ShareSet;
use std::io::{Read, Write};

/// Splits the encrypted secret of an extendable backup anew, by another plan, and writes the mnemonics of the new backup,
/// one on each line, by group, then member (SLIP-0039, "Shamir's secret sharing"). It takes no passphrase, and every
/// passphrase goes on giving the secret that it gave (`s39_backup::resplit`).
///
/// The encrypted secret is what the least quorum of the shares combines to (`s39_set::first`). The new backup has the
/// extendable flag and the iteration exponent of the old one. It takes exactly as many random bytes as
/// `Plan::random_needed` says, of which the first two give its identifier.
///
/// Blank lines and comments are skipped. A comment starts with `#`, after any spaces, tabs and carriage returns.
///
/// The first error that applies is returned, and then nothing is written:
///
/// - what `s39_input::read_set` refuses: a line, or a failed read;
/// - `Lack` if the shares have no quorum;
/// - `DigestMismatch` if a digest of the least quorum doesn't match;
/// - `NotExtendable` if the backup isn't extendable;
/// - `RandomLength` if there are more or fewer random bytes than needed, with that number;
/// - `SameIdentifier` if the first two random bytes give the identifier that the backup has.
///
/// If a write fails or takes no byte, the fault is `Device(Write)`, and a beginning of the mnemonics is written. The
/// caller keeps both `failures()` below `u64::MAX`.
///
/// ```rust
/// let plan = Plan::parse("1of1")?;
/// let mut input = Counting::new(
///     b"enemy favorite academic acid cowboy phrase havoc level response walnut budget painting \
///     inside trash adjust froth kitchen learn tidy punish\n\
///     enemy favorite academic always academic sniff script carpet romp kind promise scatter \
///     center unfair training emphasis evening belong fake enforce\n"
///         .as_slice(),
/// );
/// let mut text = Vec::new(rt.alloc());
/// run_resplit(&plan, b"\x12\x34", &mut input, &mut Counting::new(&mut text))?;
/// assert!(rt; text.starts_with(b"cleanup pecan academic academic broken "));
/// ```
pub fn run_resplit<R: Read, W: Write>(
    plan: &Plan,
    random: &[u8],
    input: &mut Counting<R>,
    output: &mut Counting<W>,
) -> Result<(), Fault>
    requires readable { input.old.failures < u64.MAX }
    requires writable { output.old.failures < u64.MAX }
    ensures runs { Runs R.remaining W.contents
        (IsResplitOutput plan.now.group_threshold plan.now.groups.items random.now)
        input.old input.new output.old output.new result }
    // Of mnemonics of a created backup: what `create` writes for its secret, passphrase and options, or why nothing is
    // written.
    ensures created { Runs R.remaining W.contents
        (ResplitsCreated plan.now.group_threshold plan.now.groups.items random.now)
        input.old input.new output.old output.new result }
    // Of any devices.
    ensures untouched { IfErr result (λ fault.
        fault.refusal ≢ Refusal.Device DeviceFailure.Write → output.new ≡ output.old) }
{
    created_backups_are_split_anew();
    write_resplit(plan, random, input, output)
}

/// Writes the mnemonics of the new backup, as `run_resplit` says.
fn write_resplit<R: Read, W: Write>(
    plan: &Plan,
    random: &[u8],
    input: &mut Counting<R>,
    output: &mut Counting<W>,
) -> Result<(), Fault>
    requires readable { input.old.failures < u64.MAX }
    requires writable { output.old.failures < u64.MAX }
    ensures runs { Runs R.remaining W.contents
        (IsResplitOutput plan.now.group_threshold plan.now.groups.items random.now)
        input.old input.new output.old output.new result }
    ensures untouched { IfErr result (λ fault.
        fault.refusal ≢ Refusal.Device DeviceFailure.Write → output.new ≡ output.old) }
{
    let set = read_set(input)?;
    let mut created = Created::new();
    resplit(plan, &set, random, &mut created)?;
    let shares = created.shares();
    write_mnemonics(output, shares)?;
    Ok(())
}

/// Splits the encrypted secret of an extendable backup anew, and puts the text that `run_resplit` writes for these lines
/// at the front of `text`: the mnemonics of the new backup by group, then member, each followed by a line feed. It returns
/// the length of that text in bytes, and the number of mnemonics. The bytes of `text` after it are unchanged.
///
/// The first error that applies is returned, and then `text` is unchanged:
///
/// - the first refused line, with its number;
/// - `Lack` if the shares have no quorum;
/// - `DigestMismatch` if a digest of the least quorum doesn't match;
/// - `NotExtendable` if the backup isn't extendable;
/// - `RandomLength` if there are more or fewer random bytes than `Plan::random_needed` says;
/// - `SameIdentifier` if the first two random bytes give the identifier that the backup has;
/// - `TooShort`, with the number of bytes needed, if the text doesn't fit.
///
/// ```rust
/// let plan = Plan::parse("1of1")?;
/// let lines =
///     b"enemy favorite academic acid cowboy phrase havoc level response walnut budget painting \
///     inside trash adjust froth kitchen learn tidy punish\n\
///     enemy favorite academic always academic sniff script carpet romp kind promise scatter \
///     center unfair training emphasis evening belong fake enforce\n";
/// let mut text = [0; 200];
/// let put = resplit_lines(&plan, lines, b"\x12\x34", &mut text)?;
/// assert_eq!(rt; put.lines, 1);
/// assert!(rt; text.starts_with(b"cleanup pecan academic academic broken "));
/// ```
pub fn resplit_lines(
    plan: &Plan,
    lines: &[u8],
    random: &[u8],
    text: &mut [u8],
) -> Result<WrittenLines, NoOutput>
    ensures resplit { Puts
        (IsResplitOutput plan.now.group_threshold plan.now.groups.items random.now (whole lines.now))
        text.old text.new result }
    // Of mnemonics of a created backup: what `create` writes for its secret, passphrase and options, or why nothing is
    // written.
    ensures created { Puts
        (ResplitsCreated plan.now.group_threshold plan.now.groups.items random.now (whole lines.now))
        text.old text.new result }
{
    created_backups_are_split_anew();
    put_answer(&split_from(plan, lines, random), text)
}

/// The shares of the new backup, as lines in memory give them.
fn split_from(plan: &Plan, lines: &[u8], random: &[u8]) -> Result<Created, Fault>
    ensures { IsSplitFrom plan.now.group_threshold plan.now.groups.items random.now
        (whole lines.now) result }
{
    let set = set_in(lines)?;
    split_of(plan, &set, random)
}

/// The shares of the new backup, as a set gives them.
fn split_of(plan: &Plan, set: &ShareSet, random: &[u8]) -> Result<Created, Fault>
    ensures { IsSplitOf plan.now.group_threshold plan.now.groups.items random.now set.now result }
{
    let mut created = Created::new();
    resplit(plan, set, random, &mut created)?;
    Ok(created)
}

/// Creates a backup of the encrypted secret of an extendable backup, and puts its mnemonics at the front of `text`, by group,
/// then member, each followed by a line feed. It returns their length in bytes, and their number. The bytes of `text` after
/// them are unchanged. It takes no passphrase, and every passphrase gives the secret that it decrypts of the encrypted one
/// (`s39_backup::create_from_encrypted`).
///
/// `params` are the parameters by which the secret is encrypted. The new backup has their extendable flag and their iteration
/// exponent. It takes exactly as many random bytes as `Plan::random_needed` says, of which the first two give its identifier.
///
/// The first error that applies is returned, and then `text` is unchanged:
///
/// - `SecretLength` if the encrypted secret has an odd number of bytes, fewer than 16, or more than 128;
/// - `NotExtendable` if the backup isn't extendable;
/// - `RandomLength` if there are more or fewer random bytes than needed, with that number;
/// - `SameIdentifier` if the first two random bytes give the identifier that the backup has;
/// - `TooShort`, with the number of bytes needed, if the text doesn't fit.
///
/// ```rust
/// let plan = Plan::parse("1of1")?;
/// let params = Params {
///     id: 7945,
///     extendable: true,
///     exponent: 2,
/// };
/// let encrypted = b"\x14\xd7\x86\xbd\xb0\x0a\x6f\xef\x14\x16\x3f\x4e\xc9\x9b\xf2\x60";
/// let mut text = [0; 200];
/// let put = lines_from_encrypted(&plan, params, encrypted, b"\x5a\x17", &mut text)?;
/// assert_eq!(rt; put.lines, 1);
/// assert!(rt; text.starts_with(b"race retailer academic academic aircraft "));
/// ```
pub fn lines_from_encrypted(
    plan: &Plan,
    params: Params,
    encrypted: &[u8],
    random: &[u8],
    text: &mut [u8],
) -> Result<WrittenLines, NoOutput>
    ensures { Puts (IsOutputFromEncrypted plan.now.group_threshold plan.now.groups.items random.now
        (params, encrypted.now)) text.old text.new result }
{
    put_answer(&from_encrypted(plan, params, encrypted, random), text)
}

/// The shares of a new backup of an encrypted secret.
fn from_encrypted(
    plan: &Plan,
    params: Params,
    encrypted: &[u8],
    random: &[u8],
) -> Result<Created, Fault>
    ensures { AreFromEncrypted plan.now.group_threshold plan.now.groups.items random.now
        (params, encrypted.now) result }
{
    let bytes = check_secret(encrypted)?;
    let mut created = Created::new();
    create_from_encrypted(plan, params, &bytes, random, &mut created)?;
    Ok(created)
}
