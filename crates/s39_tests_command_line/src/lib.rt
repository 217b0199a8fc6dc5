//! Tests of the command line, of what is told of it, of files of values and of random bytes, and of exit statuses.
#![tactic(auto)]

#[cfg(test)]
mod command_line;
#[cfg(test)]
mod expect;
#[cfg(test)]
mod random_files;
#[cfg(test)]
mod statuses;
#[cfg(test)]
mod value_files;
