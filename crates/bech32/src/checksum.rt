//! The register of the checksum.
ghost use Rattle.std.specs.Prelude.{◌≡◌, ◌+◌, ◌*◌, ◌/◌, ◌%◌, ◌^◌, ◌<◌, ◌≤◌, ◌++◌, ◌∷◌, [], fold, map};
ghost use Rattle.bech32.specs.Segwit.{generator_if, next, polymod, expanded, checksum};

/// The register after one more value.
#[tactic(auto, unfolding(crate::specs::Segwit::next))]
fn next(register: u32, value: u8) -> u32
    ensures { result ≡ next register value }
{
    let top = register / 0x200_0000;
    register % 0x200_0000 * 32
        ^ u32::from(value)
        ^ generator_if(top, 1, 0x3b6a_57b2)
        ^ generator_if(top, 2, 0x2650_8e6d)
        ^ generator_if(top, 4, 0x1ea1_19fa)
        ^ generator_if(top, 8, 0x3d42_33dd)
        ^ generator_if(top, 16, 0x2a14_62b3)
}

/// The constant if the bit at the place is 1, and 0 if it isn't.
fn generator_if(top: u32, place: u32, constant: u32) -> u32
    requires { 0 < place }
    ensures { result ≡ generator_if top place constant }
{
    if top / place % 2 == 1 { constant } else { 0 }
}

/// The register after these values.
fn after_values(register: u32, values: &[u8]) -> u32
    ensures { result ≡ fold next register values.now }
{
    let mut register = register;
    for value in values {
        register = next(register, *value);
    }
    register
}

/// The register after the high bits of each character.
fn after_high_bits(register: u32, prefix: &[u8]) -> u32
    ensures { result ≡ fold next register (map (λ c. c / 32) prefix.now) }
{
    let mut register = register;
    for c in prefix {
        register = next(register, *c / 32);
    }
    register
}

/// The register after the low bits of each character.
fn after_low_bits(register: u32, prefix: &[u8]) -> u32
    ensures { result ≡ fold next register (map (λ c. c % 32) prefix.now) }
{
    let mut register = register;
    for c in prefix {
        register = next(register, *c % 32);
    }
    register
}

/// The register after the human-readable part.
fn after_prefix(prefix: &[u8]) -> u32
    ensures { result ≡ polymod (expanded prefix.now) }
{
    after_low_bits(next(after_high_bits(1, prefix), 0), prefix)
}

/// The checksum of a human-readable part and values.
pub(crate) fn checksum(last: u32, prefix: &[u8], values: &[u8]) -> [u8; 6]
    ensures { result ≡ checksum last prefix.now values.now }
{
    let register = after_values(
        after_values(after_prefix(prefix), values),
        &[0, 0, 0, 0, 0, 0],
    ) ^ last;
    [
        (register / 0x200_0000 % 32) as u8,
        (register / 0x10_0000 % 32) as u8,
        (register / 0x8000 % 32) as u8,
        (register / 0x400 % 32) as u8,
        (register / 0x20 % 32) as u8,
        (register % 32) as u8,
    ]
}

/// The register after a human-readable part and these groups.
pub(crate) fn polymod(prefix: &[u8], groups: &[u8]) -> u32
    ensures { result ≡ polymod (expanded prefix.now ++ groups.now) }
{
    after_values(after_prefix(prefix), groups)
}
