//! Laws on what `clap`'s definition of a simple command gives its callers: which words are refused and how, which
//! subcommand they name, and which values its arguments have.
#![tactic(auto)]

pub mod laws;
