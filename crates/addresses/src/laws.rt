//! Facts about the definitions. Each is the contract of a function that does nothing.
ghost use Rattle.std.specs.Prelude.{◌≡◌, Some, None, nat_lt, if◌then◌else◌};
ghost use Rattle.std.specs.Int.{bytes_high_first};
ghost use Rattle.std.specs.Option.{option_map};
ghost use Rattle.curve_field.specs.Order.{order};
ghost use Rattle.curve_points.specs.declared.point.Affine.{Affine};
ghost use Rattle.curve_points.specs.declared.point.Point.TheVariants.{Finite};
ghost use Rattle.curve_points.specs.Points.{sum_of};
ghost use Rattle.curve_points.specs.Multiples.{public_point};
ghost use Rattle.curve_points.specs.Compressed.{compressed};
ghost use Rattle.curve_points.specs.OnCurve.{IsOnCurve};
ghost use Rattle.curve_points.specs.Lifted.{even};
ghost use Rattle.addresses.specs.declared.address.Kind.TheVariants as kinds;
ghost use Rattle.addresses.specs.Address.{coordinates, address_of, text_of};
ghost use Rattle.addresses.specs.Bitcoin.{p2pkh, p2sh_p2wpkh, p2wpkh};
ghost use Rattle.addresses.specs.Ethereum.{ethereum_address};
ghost use Rattle.addresses.specs.Taproot.{tweak, x_only, output_key, p2tr};

/// The texts of addresses are those of their standards.
pub fn texts_are_of_their_standards()
    ensures p2pkh { (a : Affine) → option_map text_of (address_of kinds.P2pkh (Finite a)) ≡ Some (p2pkh (compressed (Finite a))) }
    ensures p2sh_p2wpkh { (a : Affine)
        → option_map text_of (address_of kinds.P2shP2wpkh (Finite a)) ≡ Some (p2sh_p2wpkh (compressed (Finite a))) }
    ensures p2wpkh { (a : Affine) → option_map text_of (address_of kinds.P2wpkh (Finite a)) ≡ Some (p2wpkh (compressed (Finite a))) }
    ensures p2tr { (a : Affine) → option_map text_of (address_of kinds.P2tr (Finite a)) ≡ p2tr (bytes_high_first 32 a.x) }
    ensures ethereum { (a : Affine)
        → option_map text_of (address_of kinds.Ethereum (Finite a)) ≡ Some (ethereum_address (coordinates a)) }
{}

/// The x of each point of the curve, and so of each public key, is lifted to the point with an even y. So it has no output key
/// exactly if its tweak isn't below the order, or the sum is infinity.
pub fn public_keys_are_tweaked()
    ensures { (a : Affine) → IsOnCurve a
        → output_key (bytes_high_first 32 a.x)
        ≡ (if nat_lt (tweak (bytes_high_first 32 a.x)) order
        then x_only (sum_of (Finite (record { x = a.x; y = even a.y })) (public_point (tweak (bytes_high_first 32 a.x))))
        else None) }
{}
