//! The call that counts quorums.
ghost use Rattle.std.specs.Prelude.{◌≡◌};
ghost use Rattle.s39_input.specs.Input.{whole};
ghost use Rattle.s39_input.specs.Accepted.{read_as};
ghost use Rattle.s39_c.specs.Counting.{counted_answer, set_answer};

use crate::answer::ShamirAnswer;
use crate::clearing::QUORUMS;
use s39_clearing::clear_stack;
use s39_input::{Fault, set_in};
use s39_set::{SetLack, ShareSet, quorum_count_of};

/// Counts the quorums among the mnemonics in `lines`. The call needs no passphrase.
///
/// `first` of the answer is how many quorums a drill of these lines lists, or 2^64 - 1 if there are more. If the
/// mnemonics have none, `first` is 0 and the code is still 0.
///
/// The call refuses with the first of these that applies: the code of the first refused line (11 to 15, 21 to 28, 71), 29 (there
/// is no mnemonic).
///
/// ```c
/// shamir_answer answer = shamir_quorums(lines, lines_bytes);
/// uint64_t quorums = answer.first;
/// ```
#[unsafe(no_mangle)]
pub extern "C" fn shamir_quorums(lines: &[u8]) -> ShamirAnswer
    ensures { result ≡ counted_answer (read_as (whole lines.now)) }
{
    let answer = counted_answer(lines);
    let _ = clear_stack::<QUORUMS>();
    answer
}

/// The answer of `shamir_quorums`.
#[inline(never)]
fn counted_answer(lines: &[u8]) -> ShamirAnswer
    ensures { result ≡ counted_answer (read_as (whole lines.now)) }
{
    match set_in(lines) {
        Ok(set) => set_answer(&set),
        Err(stop) => ShamirAnswer::from(Fault::from(stop)),
    }
}

/// The answer for a set.
fn set_answer(set: &ShareSet) -> ShamirAnswer
    ensures { result ≡ set_answer set.now }
{
    if set.is_empty() {
        return ShamirAnswer::from(Fault::from(SetLack::NoShares));
    }
    ShamirAnswer::quorums(quorum_count_of(set))
}
