//! Tests of the crates that compute: the fields, key derivation, the cipher, and the sharing of one level. They stand on these
//! crates alone.
#![tactic(auto)]

#[cfg(test)]
mod cipher;
#[cfg(test)]
mod expect;
#[cfg(test)]
mod field;
#[cfg(test)]
mod fitting;
#[cfg(test)]
mod kdf;
#[cfg(test)]
mod split;
