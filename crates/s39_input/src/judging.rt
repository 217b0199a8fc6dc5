//! What a mnemonic is beside those that came before it.
ghost use Rattle.std.specs.Prelude.{◌≡◌, Ok, Err, IfOk, IfErr};
ghost use Rattle.s39_input.specs.Fault.{fault_of};
ghost use Rattle.s39_set.specs.ShareSet.{refusal_of};
ghost use Rattle.s39_input.specs.Judging.{beside, judged, judgement, share_of};

use crate::fault::{Fault, LineRefusal, Refusal};
use crate::lines::{MAX_LINE_BYTES, TakeLine, share_in, take_lines_of};
use s39_set::{Added, ShareSet};
use s39_words::{Share, parse};

/// What a mnemonic is beside those that came before it.
#[derive(Drop)]
pub struct Judged {
    /// The share of the mnemonic.
    pub share: Share,
    /// Whether this share is among those that came before it.
    pub again: bool,
    /// The shares with its identifier: those that came before it, and this share.
    pub set: ShareSet,
}

/// The shares with one identifier.
#[derive(Drop)]
struct Mates {
    id: u16,
    set: ShareSet,
}

/// A line is taken by adding the share that it holds, if this has the identifier.
impl TakeLine for Mates {
    ghost use Rattle.std.proofs.Common.{ap, refl};
    ghost use Rattle.s39_lists.specs.Each.{and_then};
    ghost use Rattle.s39_words.specs.Reading.{reading};
    ghost use Rattle.s39_input.specs.Accepted.{with_held};
    ghost use Rattle.s39_input.specs.Theory.LongLines.{long_is_refused};
    ghost use Rattle.s39_input.specs.Collecting.{CollectsMate};
    ghost use Rattle.s39_input.specs.Judging.{mate_in};
    ghost use Rattle.s39_input.specs.declared.fault.LineRefusal.TheVariants.{TooLong, Word};

    type Refusal = LineRefusal;

    ghost can_take = { λ mates. Unit {0} };

    ghost takes = { CollectsMate };

    ghost length_refusal = { TooLong };

    fn take_line(&mut self, line: &[u8]) -> Result<(), LineRefusal> {
        let Some(share) = share_in(line)? else {
            return Ok(());
        };
        if share.id() != self.id {
            return Ok(());
        }
        match self.set.add(share) {
            Ok(_) => Ok(()),
            Err(error) => Err(LineRefusal::Set(error)),
        }
    }

    fn too_long() -> LineRefusal {
        LineRefusal::TooLong
    }

    ghost refuses_long = { λ mates line long. (
      ap (and_then (λ held. with_held mates.set (mate_in mates.id held)))
          (long_is_refused Word line (reading line) long),
      refl,
    ) };
}

/// Says what a mnemonic is beside the lines that came before it: its share, whether this share is among theirs, and the set
/// that it makes with their shares of the same identifier. `lines` may be of several backups: shares with another identifier
/// change nothing. Blank lines and comments are skipped in `lines`. A comment starts with `#`, after any spaces, tabs and
/// carriage returns.
///
/// The first error that applies is returned:
///
/// - `TooLong`, at no line, if `line` has more than 1,024 bytes, and then a word error of it;
/// - the first refused line of `lines`, with its number: a word error, `TooLong` if it has more than 1,024 bytes, or `Set`
///   if its share has the identifier of `line` and can't join those of the lines before it;
/// - `Set`, at no line, if the share of `line` can't join theirs.
///
/// ```rust
/// let first =
///     b"shadow pistol academic acid actress prayer class unknown daughter sweater depict flip \
///     twice unkind craft early superior advocate guest smoking";
/// let other =
///     b"duckling enlarge academic academic agency result length solution fridge kidney coal \
///     piece deal husband erode duke ajar critical decision keyboard";
/// let judged = judge(first, first)?;
/// assert_eq!(rt; (judged.share.id(), judged.again), (25_653, true));
/// let judged = judge(first, other)?;
/// assert_eq!(rt; (judged.share.id(), judged.again), (7945, false));
/// let fault = judge(first, &other[1..]).err();
/// assert_eq!(rt; fault.map(|fault| (fault.line, fault.refusal.cause().code)), Some((None, 11)));
/// ```
pub fn judge(lines: &[u8], line: &[u8]) -> Result<Judged, Fault>
    ensures { judgement lines.now line.now ≡ result }
{
    let share = share_of(line)?;
    let mut mates = Mates {
        id: share.id(),
        set: ShareSet::new(),
    };
    take_lines_of(lines, &mut mates)?;
    // The set keeps the share that it takes, so the line is read once more.
    let again = joins(&mut mates.set, share_of(line)?)?;
    Ok(Judged {
        share,
        again,
        set: mates.set,
    })
}

/// Adds a share to the set of its mates, and says whether the set had it.
fn joins(set: &mut ShareSet, share: Share) -> Result<bool, Fault>
    ensures joined { IfOk result (λ again.
        beside share set.old (refusal_of set.old share) ≡ Ok (judged share again set.new)) }
    ensures refused { IfErr result (λ fault.
        beside share set.old (refusal_of set.old share) ≡ Err fault) }
{
    match set.add(share) {
        Ok(Added::New) => Ok(false),
        Ok(Added::Repeat) => Ok(true),
        Err(error) => Err(fault_of(LineRefusal::Set(error))),
    }
}

/// The share of a mnemonic.
fn share_of(line: &[u8]) -> Result<Share, Fault>
    ensures { share_of line.now ≡ result }
{
    if line.len() > MAX_LINE_BYTES {
        return Err(fault_of(LineRefusal::TooLong));
    }
    match parse(line) {
        Ok(share) => Ok(share),
        Err(error) => Err(fault_of(LineRefusal::Word(error))),
    }
}

/// The fault that the judged mnemonic is refused, which has no line.
fn fault_of(refusal: LineRefusal) -> Fault
    ensures { result ≡ fault_of (Refusal.Line refusal) }
{
    Fault::from(Refusal::Line(refusal))
}
