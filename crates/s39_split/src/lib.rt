//! One level of Shamir's secret sharing as SLIP-0039 defines it: splitting a secret, combining shares, computing
//! lost shares from others, and fitting random bytes to known shares.
//!
//! ```rust
//! use s39_kdf::Bytes;
//! use s39_split::{combine, random_needed, split};
//!
//! let secret = Bytes::try_from([7; 16].as_slice())?;
//! assert_eq!(rt; random_needed(2, 16), 12);
//! let mut shares: [Bytes; 3] = Default::default();
//! split(2, &secret, &[1; 12], &mut shares);
//! let recovered = combine(2, &[(1, &shares[1]), (0, &shares[0])])?;
//! assert_eq!(rt; recovered, secret);
//! ```
#![tactic(auto)]

mod completion;
mod digest;
mod fitting;
mod interpolation;
pub mod laws;
mod lent_points;
mod places;
mod recovery;
mod sharing;

pub use completion::complete;
pub use fitting::fit;
pub use lent_points::Points;
pub use places::{DIGEST_BYTES, DIGEST_PLACE, MAX_RANDOM_BYTES, MAX_SHARES, SECRET_PLACE};
pub use recovery::{DigestMismatch, combine};
pub use sharing::{random_needed, split};
