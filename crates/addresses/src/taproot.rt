//! Bitcoin's addresses of a key with no script.
ghost use Rattle.std.specs.Prelude.{◌≡◌, ◌<◌, ◌≤◌, MatchOption, None, Some};
ghost use Rattle.std.specs.Int.Digits.{number_from_digits};
ghost use Rattle.curve_field.specs.Order.{order};
ghost use Rattle.curve_points.specs.Lifted.{lift_x};
ghost use Rattle.addresses.specs.Taproot.{tweak, x_only, output_key, p2tr};

use arrayvec::ArrayVec;
use bech32::{MAX_ADDRESS, segwit_address};
use curve_field::{FieldElement, Scalar};
use curve_points::{Affine, Point, generator, lift_x, multiple};
use hashes::tagged_hash;

/// The bytes of a public key without its sign (BIP-340).
pub const X_ONLY_BYTES: usize = 32;

/// Pay to the output key of an internal key (P2TR), or `None` if it has none.
pub fn p2tr(internal: &[u8; X_ONLY_BYTES]) -> Option<ArrayVec<u8, MAX_ADDRESS>>
    ensures { MatchOption result (p2tr internal.now ≡ None) (λ text. p2tr internal.now ≡ Some text.items) }
{
    match output_key(internal) {
        Some(output) => Some(segwit_address(b"bc", 1, &output)),
        None => None,
    }
}

/// Returns the output key of an internal key with no script, as BIP-341 computes it. It is `None` if the key isn't the x of a
/// point of the curve, its tweak isn't below the order of the group, or the output key is infinity. Of the x of a public key, only
/// the last two are meant ([`public_keys_are_tweaked`](crate::laws::public_keys_are_tweaked)): a random key meets them once in
/// 2^127. Its branches depend on the key, which is public.
#[tactic(auto, unfolding(crate::specs::Taproot::output_key))]
pub fn output_key(internal: &[u8; X_ONLY_BYTES]) -> Option<[u8; X_ONLY_BYTES]>
    ensures { result ≡ output_key internal.now }
{
    match tweak(internal) {
        Some(tweak) => match lifted(internal) {
            Some(point) => x_only(&Point::Finite(point).add(&multiple(&generator(), tweak))),
            None => None,
        },
        None => None,
    }
}

/// The scalar that an internal key is tweaked by.
fn tweak(internal: &[u8; X_ONLY_BYTES]) -> Option<Scalar>
    ensures { MatchOption result (order ≤ tweak internal.now) (λ t. (t ≡ tweak internal.now) × (t < order)) }
{
    Scalar::from_bytes(&tagged_hash(b"TapTweak", internal))
}

/// The point of the curve whose x these bytes are, and whose y is even.
#[tactic(auto, unfolding(curve_points::specs::Lifted::lift_x))]
fn lifted(internal: &[u8; X_ONLY_BYTES]) -> Option<Affine>
    ensures { result ≡ lift_x (number_from_digits 256 internal.now) }
{
    match FieldElement::from_bytes(internal) {
        Some(x) => lift_x(x),
        None => None,
    }
}

fn x_only(point: &Point) -> Option<[u8; X_ONLY_BYTES]>
    ensures { result ≡ x_only point.now }
{
    match point {
        Point::Infinity => None,
        Point::Finite(a) => Some(a.x.to_bytes()),
    }
}
