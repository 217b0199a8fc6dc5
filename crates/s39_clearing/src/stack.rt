//! Clearing of the stack behind a call.
ghost use Rattle.std.specs.Prelude.{◌≡◌, ◌≤◌};

use std::array;
use std::sync::atomic::Ordering::SeqCst;
use std::sync::atomic::{AtomicIn, Rule};

/// How many words the first clearing fills: one KiB.
const FIRST: usize = 128;

/// A word that is always 0.
struct Zero;

impl Rule for Zero {
    ghost invariant = { λ word. word ≡ 0 };
}

/// Fills this many words of the stack, at most 65,536, below the frame of the caller, with zeros.
///
/// The first call of `memset` in a program may keep registers on the stack, below the words that it fills. So the first one
/// fills few words, and the second one fills what the first one left.
pub fn clear_stack<const COUNT: usize>() -> u64
    requires { COUNT ≤ 65536 }
    ensures { result ≡ 0 }
{
    let _ = zero_words::<FIRST>();
    zero_words::<COUNT>()
}

/// Fills this many words of the stack with zeros. It reads them back as atomic words, so that the compiler leaves out neither
/// the reads nor the zeros.
#[inline(never)]
fn zero_words<const COUNT: usize>() -> u64
    requires { COUNT ≤ 65536 }
    ensures { result ≡ 0 }
{
    let room: [AtomicIn<Zero>; COUNT] = array::from_fn(|_| AtomicIn::new(0));
    let mut sum = 0;
    for word in &room {
        sum |= word.load(SeqCst);
    }
    sum
}
