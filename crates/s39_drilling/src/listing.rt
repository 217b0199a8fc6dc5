//! The drill of a set, into a slice.
ghost use Rattle.std.specs.Prelude.{◌≡◌, ℕ, List, Option, ◌+◌, ◌-◌, ◌<◌, ◌≤◌, ◌++◌, [], All, Some, None, Ok, Err, IfOk, IfErr, IsOk, length, take, drop};
ghost use Rattle.std.specs.Option.{option_copied};
ghost use Rattle.s39_kdf.specs.Limits.{IsPrintable};
ghost use Rattle.s39_set.specs.Names.{Names};
ghost use Rattle.s39_set.specs.Looks.{most_step_looks};
ghost use Rattle.s39_set.specs.Quorums.{IsQuorum, IsFirstQuorumAfter};
ghost use Rattle.s39_set.specs.ShareSet.{IsShareSet};
ghost use Rattle.s39_backup.specs.Outcome.{AreParams};
ghost use Rattle.s39_drilling.specs.Drill.{StartsAt, WritesDrillOf, last_line};
ghost use Rattle.s39_input.specs.Slices.{IsInFront};
ghost use Rattle.s39_drilling.specs.Slices.{Lists, IsTried, Fills};

use crate::drill::{following, last_line, mismatch_in, outcome_of, quorum_line, start_of};
use crate::laws::drill_laws;
use s39_backup::{Memo, params_of};
use s39_input::{Fault, Line, NoOutput, SecretForm, TooShort, put};
use s39_set::laws::listings_join;
use s39_set::{Looks, Quorum, ShareSet};

/// What `drill_set` put into a slice.
#[derive(Clone, Copy, Debug, PartialEq, Eq)]
pub struct Listing {
    /// The length of its text in bytes.
    pub written: usize,
    /// How many quorums it lists, each in a line.
    pub listed: u32,
    /// Where its last line starts: the length of the lines before it in bytes.
    pub last: usize,
    /// How many of the listed quorums have a digest that doesn't match, or give a secret with another fingerprint than
    /// the expected one.
    pub mismatches: u32,
}

/// Tries the quorums of a set that come after a given one, or all of them if none is given. It puts what `run_drill`
/// writes for them with this form of secrets at the front of `text`, and leaves the bytes of `text` after it unchanged.
///
/// It lists at most `limit` quorums, and stops before the first one whose line doesn't fit together with the last line.
/// The last line is `end`, or `more after ` and the quorum after which another call goes on.
///
/// The first error that applies is returned, and then `text` is unchanged:
///
/// - `Lack` if the shares have no quorum;
/// - `NotAQuorum` if the given names aren't a quorum of the shares;
/// - `TooShort`, with the number of bytes needed, if the line of the first quorum and the last line don't fit, or, if
///   no quorum is left, the line `end`.
///
/// A wrong passphrase isn't detected: as a rule it gives other secrets. The caller passes a printable passphrase, and a
/// `limit` of at least 1.
///
/// ```rust
/// let line =
///     b"duckling enlarge academic academic agency result length solution fridge kidney coal \
///     piece deal husband erode duke ajar critical decision keyboard\n";
/// let set = checked_set_in(b"TREZOR", line)?;
/// let mut text = [7; 17];
/// let listing = drill_set(SecretForm::Fingerprint, b"TREZOR", None, 1000, &set, &mut text)?;
/// assert_eq!(rt; (listing.last, listing.written), (13, 17));
/// assert_eq!(rt; text, *b"0.0 df41d8fe\nend\n");
/// ```
pub fn drill_set(
    form: SecretForm,
    passphrase: &[u8],
    after: Option<&Quorum>,
    limit: u32,
    set: &ShareSet,
    text: &mut [u8],
) -> Result<Listing, NoOutput>
    requires printable { All IsPrintable passphrase.now }
    requires some { 1 ≤ limit }
    ensures { Lists (λ n text answer. WritesDrillOf form passphrase.now
        (option_copied after.entry) n set.now (text, answer))
        limit text.old text.new result }
{
    listings_join();
    match start_in(set, after)? {
        Some(start) => {
            let mut memo = Memo::new(passphrase, params_of(set, &start));
            Ok(fill(form, set, start, &mut memo, limit, text)?)
        }
        None => Ok(put_end(text)?),
    }
}

/// The quorum at which a drill of a set starts, if there is one.
fn start_in(set: &ShareSet, after: Option<&Quorum>) -> Result<Option<Quorum>, Fault>
    ensures is_set { IsShareSet set.now }
    ensures starts { IfOk result (StartsAt set.now (option_copied after.entry)) }
    ensures refused { IfErr result (λ fault. (form : SecretForm) (passphrase : List ℕ) (limit : ℕ)
        → WritesDrillOf form passphrase (option_copied after.entry) limit set.now ([], Err fault)) }
{
    Ok(start_of(set, after)?)
}

/// Puts the text of a drill without a quorum at the front of a slice.
fn put_end(text: &mut [u8]) -> Result<Listing, TooShort>
    ensures listed { IfOk result (λ listing. IsInFront (last_line None) text.old text.new
        × (listing.written ≡ length (last_line None)) × (listing.listed ≡ 0)
        × (listing.last ≡ 0) × (listing.mismatches ≡ 0)) }
    ensures short { IfErr result (λ short. (short.needed ≡ length (last_line None))
        × (length text.old < length (last_line None)) × (text.new ≡ text.old)) }
{
    let end = last_line(None);
    if text.len() < end.len() {
        return Err(TooShort { needed: end.len() });
    }
    Ok(ended(text, 0, &end, 0, 0))
}

/// Puts the drill of a set that starts at this quorum at the front of a slice. It has no passphrase but that of the memo, so one
/// memo serves all quorums.
fn fill(
    form: SecretForm,
    set: &ShareSet,
    start: Quorum,
    memo: &mut Memo<'_>,
    limit: u32,
    text: &mut [u8],
) -> Result<Listing, TooShort>
    requires is_set { IsShareSet set.now }
    requires quorum { IsQuorum set.now start }
    requires params { AreParams set.now memo.old.params }
    requires some { 1 ≤ limit }
    ensures { (after : Option Names) → IsFirstQuorumAfter set.now after start
        → Fills form set.now memo.old.passphrase after limit text.old text.new result }
{
    drill_laws();
    let mut looks = Looks::new();
    let first = try_quorum(form, set, &start, memo, &mut looks);
    let mut written = put_line(text, 0, &first)?;
    let mut mismatches = first.mismatches;
    let mut last = first.last;
    let mut next = first.next;
    let mut left = limit - 1;
    while left > 0 {
        let Some(quorum) = next else {
            break;
        };
        let tried = try_quorum(form, set, &quorum, memo, &mut looks);
        let Ok(end) = put_line(text, written, &tried) else {
            break;
        };
        written = end;
        mismatches += tried.mismatches;
        last = tried.last;
        next = tried.next;
        left -= 1;
    }
    Ok(ended(text, written, &last, limit - left, mismatches))
}

/// A quorum that was tried.
#[derive(Drop)]
struct Tried {
    /// Its line.
    line: Line,
    /// The last line of a drill that ends with it.
    last: Line,
    /// The quorum that comes after it.
    next: Option<Quorum>,
    /// 1 if its outcome counts as a mismatch, else 0.
    mismatches: u32,
}

/// Tries a quorum.
fn try_quorum(
    form: SecretForm,
    set: &ShareSet,
    quorum: &Quorum,
    memo: &mut Memo<'_>,
    looks: &mut Looks,
) -> Tried
    requires quorum { IsQuorum set.now quorum.now }
    requires params { AreParams set.now memo.old.params }
    requires looks { looks.old ≤ u64.MAX - most_step_looks }
    ensures tried { IsTried form set.now memo.old.passphrase quorum.now result.line.items
        result.last.items result.next result.mismatches }
    ensures passphrase { memo.new.passphrase ≡ memo.old.passphrase }
    ensures params { memo.new.params ≡ memo.old.params }
    ensures looks { looks.new ≤ looks.old + most_step_looks }
    ensures one { result.mismatches ≤ 1 }
{
    let outcome = outcome_of(set, quorum, memo);
    let next = following(set, quorum, looks);
    Tried {
        line: quorum_line(form, quorum, &outcome),
        last: last_line(next.is_some().then_some(quorum)),
        next,
        mismatches: mismatch_in(form, &outcome),
    }
}

/// Puts the line of a quorum behind what is written, if the last line fits behind it, and gives the end of the line.
fn put_line(text: &mut [u8], written: usize, tried: &Tried) -> Result<usize, TooShort>
    requires { written ≤ length text.old }
    ensures fits { IfOk result (λ end. (end ≡ written + length tried.now.line.items)
        × (end + length tried.now.last.items ≤ length text.old)
        × (text.new ≡ take written text.old ++ tried.now.line.items ++ drop end text.old)) }
    ensures short { IfErr result (λ short.
        (short.needed ≡ written + length tried.now.line.items + length tried.now.last.items)
        × (length text.old < short.needed) × (text.new ≡ text.old)) }
{
    let end = written + tried.line.len();
    let needed = end + tried.last.len();
    if text.len() < needed {
        return Err(TooShort { needed });
    }
    put(text, written, tried.line.as_slice());
    Ok(end)
}

/// Puts the last line behind what is written: the lines of this many quorums.
fn ended(text: &mut [u8], written: usize, last: &Line, listed: u32, mismatches: u32) -> Listing
    requires { written + length last.now.items ≤ length text.old }
    ensures text { text.new ≡ take written text.old ++ last.now.items
        ++ drop (written + length last.now.items) text.old }
    ensures written { result.written ≡ written + length last.now.items }
    ensures listed { result.listed ≡ listed }
    ensures last { result.last ≡ written }
    ensures mismatches { result.mismatches ≡ mismatches }
{
    put(text, written, last.as_slice());
    Listing {
        written: written + last.len(),
        listed,
        last: written,
        mismatches,
    }
}
