//! Tests of runs over devices that fail, give or take little, or are interrupted, and of what is handed on, and when.
#![tactic(auto)]

#[cfg(test)]
mod commands;
#[cfg(test)]
mod expect;
#[cfg(test)]
mod failures;
#[cfg(test)]
mod hands;
#[cfg(test)]
mod person;
#[cfg(test)]
mod progress;
#[cfg(test)]
mod said;
#[cfg(test)]
mod terminal;
