//! Facts about the definitions. Each is the contract of a function that does nothing.
ghost use Rattle.std.specs.Prelude.{◌≡◌, ℕ, ◌^◌, ◌<◌, ◌≤◌, List, ◌++◌, All, length};
ghost use Rattle.bech32.specs.Groups.{IsGroup};
ghost use Rattle.bech32.specs.Segwit.{polymod, expanded, checksum};
ghost use Rattle.bech32.specs.Reading.{IsAddress, IsRead};

/// The register that takes in a checksum too holds the number that it was made for, which is what BIP-173 and BIP-350 call
/// valid, and no other six groups do that.
#[tactic(auto, using(crate::proofs::Remainders::valid, crate::proofs::Remainders::only))]
pub fn checksums_are_valid()
    ensures valid { (last : ℕ) (prefix values : List ℕ) → last < 2 ^ 30
        → polymod (expanded prefix ++ values ++ checksum last prefix values) ≡ last }
    ensures only { (last : ℕ) (prefix values groups : List ℕ) → All IsGroup groups → length groups ≡ 6
        → polymod (expanded prefix ++ values ++ groups) ≡ last → groups ≡ checksum last prefix values }
{}

/// Just the addresses of witness programs are read, each as its version and program.
pub fn addresses_are_read()
    ensures written { (prefix text program : List ℕ) (version : ℕ) → length prefix ≤ 18 → IsAddress prefix text version program
        → IsRead prefix text version program }
    ensures read { (prefix text program : List ℕ) (version : ℕ) → IsRead prefix text version program
        → IsAddress prefix text version program }
{}
