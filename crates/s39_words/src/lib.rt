//! Shares of SLIP-0039 as mnemonics: the word list, the packing of fields into words, the checksum, and the
//! reading and printing of a text.
//!
//! ```rust
//! use s39_words::{parse, print};
//!
//! let line = b"eraser senior decision roster beard treat identify grumpy salt index fake \
//!              aviation theater cubic bike cause research dragon emphasis counter";
//! let share = parse(line)?;
//! assert_eq!(rt; (share.group_index(), share.member_index()), (3, 0));
//! assert_eq!(rt; print(&share).as_slice(), line.as_slice());
//! ```
#![tactic(auto)]

mod checksum;
pub mod laws;
mod packing;
mod prefix;
mod printing;
mod share;
mod size;
mod spelling;
mod word_error;
mod word_list;
mod word_reader;
mod word_writer;

pub use prefix::{WordRange, words_beginning};
pub use printing::{print, text_of, word_at};
pub use share::{Share, ShareFields};
pub use size::{ID_BITS, MAX_GROUPS, MAX_MEMBERS, MAX_TEXT_BYTES, MAX_WORDS};
pub use spelling::{is_word_count, parse};
pub use word_error::WordError;
pub use word_reader::{after_separators, is_separator};
