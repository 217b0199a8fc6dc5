//! Tests of the set of shares and of backups: plans, creation, recovery, missing shares, and what the theorems about secrecy say.
//! They stand on libraries, and not on the program.
#![tactic(auto)]

#[cfg(test)]
mod backup;
#[cfg(test)]
mod counting;
#[cfg(test)]
mod expect;
#[cfg(test)]
mod refitting;
#[cfg(test)]
mod reissue;
#[cfg(test)]
mod resplit;
#[cfg(test)]
mod secrecy;
#[cfg(test)]
mod set;
#[cfg(test)]
mod steps;
