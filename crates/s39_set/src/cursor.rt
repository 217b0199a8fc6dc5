//! The written form of names. Callers name shares in this form, and a listing continues from it.
ghost use Rattle.std.specs.Prelude.{◌≡◌, ◌<◌, ◌==◌, ℕ, List, IfOk, Ok, IfSome, Some};
ghost use Rattle.std.specs.Fmt.{decimal};
ghost use Rattle.s39_set.specs.Causes.{cursor_cause, names_cause};
ghost use Rattle.s39_set.specs.Names.{Name, Names, most_groups};
ghost use Rattle.s39_set.specs.Written.{IsNameText, IsWrittenForm};

use crate::limits::MAX_GROUPS;
use crate::quorum::Quorum;
use crate::texts::{cut_at, small_number};
use s39_refusal::{Cause, code};

/// A text is not the written form of names.
#[derive(Clone, Copy, Debug, PartialEq, Eq)]
pub struct BadNames;

impl BadNames {
    /// Returns the number of the refusal, 63.
    pub fn cause(&self) -> Cause
        ensures { result ≡ names_cause }
    {
        Cause::of(code::BAD_NAMES)
    }
}

/// A cursor is not the written form of names.
#[derive(Clone, Copy, Debug, PartialEq, Eq)]
pub struct BadCursor;

impl BadCursor {
    /// Returns the number of the refusal, 61.
    pub fn cause(&self) -> Cause
        ensures { result ≡ cursor_cause }
    {
        Cause::of(code::BAD_CURSOR)
    }
}

/// The names of which a text is the written form: one `G.M` or more, joined by `+`, in strictly ascending order of the
/// pairs of numbers. `G` is a group and `M` a member index, both from 0 to 15 in decimal without leading zeros.
///
/// The error is returned if the text doesn't have this form.
///
/// ```rust
/// assert_eq!(rt; parse_names(b"0.2+0.10")?.pairs(), [(0, 2), (0, 10)].as_slice());
/// assert!(rt; matches!(parse_names(b"0.10+0.2"), Err(BadNames)));
/// ```
pub fn parse_names(text: &[u8]) -> Result<Quorum, BadNames>
    ensures names { IfOk result (IsWrittenForm text.now) }
    ensures only { (names : Names) → IsWrittenForm text.now names → result ≡ Ok names }
{
    let mut quorum = Quorum::new();
    for name in text.split(is_plus) {
        let Some((group, member)) = parse_name(name) else {
            return Err(BadNames);
        };
        if !quorum.is_before(group, member) {
            return Err(BadNames);
        }
        quorum.push(group, member);
    }
    Ok(quorum)
}

/// The names of which a cursor is the written form (`parse_names`). Whether they are a quorum depends on a set
/// (`is_quorum`).
///
/// The error is returned if the cursor doesn't have this form.
///
/// ```rust
/// assert_eq!(rt; parse_quorum(b"0.0+0.2")?.pairs(), [(0, 0), (0, 2)].as_slice());
/// assert!(rt; matches!(parse_quorum(b"0.16"), Err(BadCursor)));
/// ```
pub fn parse_quorum(text: &[u8]) -> Result<Quorum, BadCursor>
    ensures names { IfOk result (IsWrittenForm text.now) }
    ensures only { (names : Names) → IsWrittenForm text.now names → result ≡ Ok names }
{
    match parse_names(text) {
        Ok(names) => Ok(names),
        Err(BadNames) => Err(BadCursor),
    }
}

fn is_plus(byte: &u8) -> bool
    ensures { result ≡ (byte.now == 43) }
{
    *byte == b'+'
}

/// The group and the member index of which a text is the written form.
fn parse_name(text: &[u8]) -> Option<(u8, u8)>
    ensures name { IfSome result (IsNameText text.now) }
    ensures only { (name : Name) → IsNameText text.now name → result ≡ Some name }
{
    let (front, back) = cut_at(text, b'.')?;
    let group = parse_index(front)?;
    let member = parse_index(back)?;
    Some((group, member))
}

/// The number from 0 to 15 of which a text is the decimal form.
fn parse_index(text: &[u8]) -> Option<u8>
    ensures below { IfSome result (λ n. n < most_groups) }
    ensures text { IfSome result (λ n. text.now ≡ decimal n) }
    ensures only { (n : ℕ) → n < most_groups → text.now ≡ decimal n → result ≡ Some n }
{
    let index = small_number(text)?;
    if index >= MAX_GROUPS {
        return None;
    }
    Some(index)
}
