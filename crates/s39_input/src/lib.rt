//! What the commands of the program `shamir` have in common: their devices, the lines of an input, the set of its
//! shares, and how a text is written. Of the commands it has those that answer each line by itself: `show` (`run_show`)
//! and `repair` (`run_repair`). `s39_creating`, `s39_drilling` and `s39_reading` have the others.
//!
//! `Counting` wraps a reader or a writer, and counts its failed calls. A run that stops early returns a `Fault`: the
//! refusal, with the line number if a line is refused. `Refusal::cause` gives the number of the refusal and its
//! details. A run tells a `Watch` how far it is.
//!
//! In the examples `rt` is the runtime, or a reference to it.
#![tactic(auto)]

mod collect;
mod device;
mod each_line;
mod emission;
mod fault;
mod hexadecimal;
mod judging;
pub mod laws;
mod lines;
mod output;
mod repair;
mod secret_form;
mod show;
mod slices;
mod watch;

pub use collect::{checked_set, checked_set_in, read_set, set_in};
pub use device::Counting;
pub use emission::{put_lines, write_lines};
pub use fault::{DeviceFailure, Fault, LineRefusal, Refusal, RefusedLine, Stop};
pub use hexadecimal::{read_hex, write_hex};
pub use judging::{Judged, judge};
pub use lines::PIECE;
pub use output::{
    LINE_BYTES, Line, WriteFailed, line_of, push_field, push_names, push_number, push_text,
    write_text,
};
pub use repair::{REPAIRED_BYTES, RepairedLines, lines_of_repaired, run_repair};
pub use s39_kdf::SecretForm;
pub use secret_form::{is_unexpected, push_secret};
pub use show::run_show;
pub use slices::{NoOutput, TooShort, WrittenLines, put};
pub use watch::Watch;
