//! Tests of refusals: which of two causes is answered, and the texts.
#![tactic(auto)]

#[cfg(test)]
mod expect;
#[cfg(test)]
mod expected;
#[cfg(test)]
mod orders;
#[cfg(test)]
mod texts;
