//! What the tests share: mnemonics of the published vectors, worked examples that another program computed, devices
//! that fail, and runs of the program whose output, message and status are compared.
#![tactic(auto)]

mod backup;
pub mod devices;
mod forgery;
mod runs;
pub mod shelves;
mod vectors;

pub use backup::{FIVE, QUORUMS_OF_FIVE, RANDOM, SECRET, create, drilled, lines};
pub use forgery::{NoForgery, forged};
pub use runs::{
    ALL_TERMINALS, DRILL, NO_TERMINAL, RECOVER, REPAIR, Run, SHOW, WRITE_FAILED_LINE, expect_bytes,
    expect_flushed, expect_over, expect_run, expect_told, program, program_at_terminal, run_on,
    run_over,
};
pub use vectors::{
    EXTENDABLE_ONE_OF_ONE, EXTENDABLE_ONE_OF_ONE_SHOWN, EXTENDABLE_TWO_WORDS_EXCHANGED,
    LONGEST_ONE_OF_ONE, LONGEST_ONE_OF_ONE_SECRET, LONGEST_ONE_OF_ONE_SHOWN, ONE_OF_ONE,
    ONE_OF_ONE_256_BITS, ONE_OF_ONE_256_BITS_SHOWN, ONE_OF_ONE_BAD_CHECKSUM,
    ONE_OF_ONE_BAD_PADDING, ONE_OF_ONE_EXTENDABLE_MEMBER_1, ONE_OF_ONE_OF_THE_OTHER_FLAG,
    ONE_OF_ONE_SECRET, ONE_OF_ONE_TWO_WORDS_LOST, ONE_OF_ONE_WITHOUT_THE_FLAG, SHOWN,
    TWO_NEEDED_MEMBER_0, TWO_NEEDED_MEMBER_2,
};
