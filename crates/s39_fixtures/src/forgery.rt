//! Mnemonics whose values were changed.

use arrayvec::ArrayVec;
use s39_kdf::check_secret;
use s39_words::{MAX_TEXT_BYTES, Share, ShareFields, parse, print};

/// The text isn't a mnemonic.
#[derive(Clone, Copy, Debug, PartialEq, Eq)]
pub struct NoForgery;

/// Returns the mnemonic with the fields of another one, except that the bits of `flip` are changed in the first byte of
/// its value.
///
/// # Errors
/// The text isn't a mnemonic.
pub fn forged(text: &str, flip: u8) -> Result<ArrayVec<u8, MAX_TEXT_BYTES>, NoForgery> {
    let Ok(share) = parse(text.as_bytes()) else {
        return Err(NoForgery);
    };
    let Ok(mut value) = check_secret(share.value()) else {
        return Err(NoForgery);
    };
    if let Some(first) = value.first_mut() {
        *first ^= flip;
    }
    let fields = ShareFields {
        id: share.id(),
        extendable: share.extendable(),
        exponent: share.exponent(),
        group_index: share.group_index(),
        group_threshold: share.group_threshold(),
        group_count: share.group_count(),
        member_index: share.member_index(),
        member_threshold: share.member_threshold(),
        value,
    };
    match Share::new(fields) {
        Some(share) => Ok(print(&share)),
        None => Err(NoForgery),
    }
}
