//! Tests of the crates of keys and addresses, a module for each standard.
#![tactic(auto)]

#[cfg(test)]
mod base58check;
#[cfg(test)]
mod curve;
#[cfg(test)]
mod digests;
#[cfg(test)]
mod expect;
#[cfg(test)]
mod extended_keys;
#[cfg(test)]
mod segwit;
#[cfg(test)]
mod shown;
#[cfg(test)]
mod wallet_accounts;
