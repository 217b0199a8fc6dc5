//! The iteration exponent of a set.
ghost use Rattle.std.specs.Prelude.{◌≡◌, ℕ, ◌≤◌, List, All, Result};
ghost use Rattle.s39_words.specs.declared.ShareFields.{ShareFields};
ghost use Rattle.s39_set.specs.ShareSet.{IsShareSet};
ghost use Rattle.s39_input.specs.declared.fault.Fault.{Fault as AnyFault};
ghost use Rattle.s39_reading.specs.Exponent.{exponent_of, IsExponent};

use s39_backup::params_of;
use s39_input::Fault;
use s39_set::laws::{one_first_quorum, one_lack, quorum_or_lack};
use s39_set::{ShareSet, first};

/// Returns the iteration exponent in which the shares of a set agree (SLIP-0039, "Format of the share mnemonic"). The
/// error is `Lack` if they have no quorum.
///
/// For this set, `recover_set` takes 10,000 * 2^exponent iterations of PBKDF2, and twice as many for a secret of more than
/// 64 bytes. This function takes none.
///
/// ```rust
/// let line =
///     b"duckling enlarge academic academic agency result length solution fridge kidney coal \
///     piece deal husband erode duke ajar critical decision keyboard\n";
/// let set = checked_set_in(b"TREZOR", line)?;
/// assert_eq!(rt; exponent_of(&set)?, 0);
/// let none = exponent_of(&checked_set_in(b"", b"")?).err();
/// assert_eq!(rt; none.map(|fault| fault.refusal.cause().code), Some(29));
/// ```
pub fn exponent_of(set: &ShareSet) -> Result<u8, Fault>
    ensures { IsExponent set.now result }
{
    let quorum = first(set)?;
    Ok(params_of(set, &quorum).exponent)
}

/// All shares of a set have its iteration exponent, which is at most 15.
pub fn shares_have_the_exponent()
    ensures all { (set : List ShareFields) → IsShareSet set
        → All (λ share. share.exponent ≡ exponent_of set) set }
    ensures most { (set : List ShareFields) → IsShareSet set → exponent_of set ≤ 15 }
{}

/// A set has exactly one result: its iteration exponent, or the fault that it has no quorum.
pub fn one_exponent()
    ensures once { (set : List ShareFields) (result other : Result ℕ AnyFault) → IsExponent set result
        → IsExponent set other → result ≡ other }
    ensures exists { (set : List ShareFields) → IsShareSet set
        → (result : Result ℕ AnyFault) × IsExponent set result }
{
    one_first_quorum();
    one_lack();
    quorum_or_lack();
}
