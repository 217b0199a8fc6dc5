//! Tests of mnemonics and of their repair. They stand on libraries, and not on the program.
#![tactic(auto)]

#[cfg(test)]
mod repair;
#[cfg(test)]
mod words;
