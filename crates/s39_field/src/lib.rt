//! The two fields of SLIP-0039: bytes for secret sharing, ten-bit words for the checksum.
//!
//! ```rust
//! use s39_field::{Field, Gf256, Gf1024};
//!
//! let a = Gf256::from(0x53);
//! assert_eq!(rt; a.mul(Gf256::from(0xCA)), Gf256::ONE);
//! let b = Gf1024::try_from(2)?;
//! assert_eq!(rt; u16::from(b.mul(Gf1024::try_from(516)?)), 1);
//! ```
#![tactic(auto)]

mod byte;
mod interpolation;
pub mod laws;
mod logarithms;
mod modulus;
mod operations;
mod polynomial;
mod rows;
mod word;

pub use byte::Gf256;
pub use interpolation::weights;
pub use operations::Field;
pub use polynomial::eval;
pub use rows::{lanes, scaled_sum};
pub use word::{Gf1024, NotTenBits};
