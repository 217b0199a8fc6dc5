//! Tests of what backups are made to and what comes of them: creation, recovery, drills, what is missing and is written again,
//! words that can't be read, splits anew, and the published vectors.
#![tactic(auto)]

#[cfg(test)]
mod create;
#[cfg(test)]
mod drill;
#[cfg(test)]
mod expect;
#[cfg(test)]
mod expected;
#[cfg(test)]
mod many;
#[cfg(test)]
mod published;
#[cfg(test)]
mod recover;
#[cfg(test)]
mod reissue;
#[cfg(test)]
mod repair;
#[cfg(test)]
mod resplit;
