//! Tests of what is read: mnemonics, and every byte in the place of one of a text.
#![tactic(auto)]

#[cfg(test)]
mod bytes;
#[cfg(test)]
mod expect;
#[cfg(test)]
mod numbers;
#[cfg(test)]
mod show;
