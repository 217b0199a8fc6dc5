//! Points of secp256k1: their sums, their multiples, and the bytes that they are written in.
#![tactic(auto)]

mod jacobian;
pub mod laws;
mod lifting;
mod point;
mod public_key;
mod secret;

pub use jacobian::multiple;
pub use lifting::lift_x;
pub use point::{Affine, Point, generator};
pub use public_key::{compressed, public_point};
pub use secret::secret_multiple;
