//! The program `shamir` without its `main`: the command line, the commands over any reader and writers, and the
//! exit status.
#![tactic(auto)]

pub mod by_words;
mod delivery;
pub mod laws;
mod notes;
mod patient;
mod person;
mod random_file;
mod runner;
mod secret_text;
mod telling;
mod terminal;
mod values;
mod work;

pub use person::{Person, Terminals};
pub use runner::{Ended, program};
pub use telling::no_words;
pub use terminal::{Watched, with_rest_dropped};
pub use values::{Shelf, SystemFiles};
