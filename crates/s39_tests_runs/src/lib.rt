//! Tests of the crates that have the runs of commands. They stand on these crates, and not on the program.
#![tactic(auto)]

#[cfg(test)]
mod creating;
#[cfg(test)]
mod drilling;
#[cfg(test)]
mod expect;
#[cfg(test)]
mod input;
#[cfg(test)]
mod judging;
#[cfg(test)]
mod reading;
#[cfg(test)]
mod resplit;
#[cfg(test)]
mod rounds;
