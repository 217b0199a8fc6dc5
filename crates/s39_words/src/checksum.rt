//! The checksum of a mnemonic, RS1024 (SLIP-0039, "Checksum").
ghost use Rattle.std.specs.Prelude.{◌≡◌, ℕ, ◌*◌, ◌^◌, ◌<◌, List, ◌++◌, All, length, fold};
ghost use Rattle.s39_words.specs.Layout.{IsIndex, checksum_length, word_bits};
ghost use Rattle.s39_words.specs.Checksum.{IsValidChecksum, customization_string};
ghost use Rattle.s39_words.specs.Division.{packed, unpacked, generator_times, next_remainder, one_remainder, has_valid_checksum};

use crate::size::{CHECKSUM_WORDS, WORD_BITS};

/// The lower coefficients of the generator, each times 2^i in the field of 1,024 elements, for i from 0 to 9. Each
/// coefficient has ten bits, and that of x^2 stands highest.
pub(crate) const GENERATOR_TIMES: [u32; WORD_BITS] = [
    0x00E0_E040,
    0x01C1_C080,
    0x0383_8100,
    0x0707_0200,
    0x0E0E_0009,
    0x1C0C_2412,
    0x3808_6C24,
    0x3090_FC48,
    0x21B1_F890,
    0x03F3_F120,
];

/// The bits of one coefficient.
const COEFFICIENT: u32 = (1 << WORD_BITS) - 1;

/// The bits of the two lower coefficients.
const LOWER_COEFFICIENTS: u32 = (1 << (2 * WORD_BITS)) - 1;

/// The remainder of long division by the generator. Each coefficient has ten bits, and that of x^2 stands highest.
#[derive(Clone, Copy)]
struct Register {
    bits: u32,
    ghost three_coefficients: { bits < 2 ^ (3 * word_bits) },
}

impl Register {
    /// The register that holds the constant 1.
    fn one() -> Register
        ensures { unpacked result.bits ≡ one_remainder }
    {
        Register { bits: 1 }
    }

    /// The register after one more coefficient.
    fn next(self, coefficient: u16) -> Register
        requires { IsIndex coefficient }
        ensures { unpacked result.bits ≡ next_remainder (unpacked self.bits) coefficient }
    {
        let highest = self.bits >> (2 * WORD_BITS);
        let shifted = (self.bits & LOWER_COEFFICIENTS) << WORD_BITS ^ u32::from(coefficient);
        Register {
            bits: shifted ^ generator_times(highest),
        }
    }

    /// The register after one more coefficient for each word.
    fn after_words(self, words: &[u16]) -> Register
        requires { All IsIndex words.now }
        ensures { unpacked result.bits ≡ fold next_remainder (unpacked self.bits) words.now }
    {
        let mut register = self;
        for word in words {
            register = register.next(*word);
        }
        register
    }

    /// The register after the customization string.
    fn after_customization_string(extendable: bool) -> Register
        ensures { unpacked result.bits
            ≡ fold next_remainder one_remainder (customization_string extendable) }
    {
        let customization_string: &[u8] = if extendable {
            b"shamir_extendable"
        } else {
            b"shamir"
        };
        let mut register = Register::one();
        for byte in customization_string {
            register = register.next(u16::from(*byte));
        }
        register
    }
}

/// The lower coefficients of the generator, each times this element.
fn generator_times(element: u32) -> u32
    requires { IsIndex element }
    ensures { result ≡ packed (generator_times element) }
{
    let mut sum = 0;
    for i in 0..WORD_BITS {
        if element >> i & 1 == 1 {
            sum ^= GENERATOR_TIMES[i];
        }
    }
    sum
}

/// Whether these words, given as indices in the word list, end with their checksum.
pub(crate) fn is_valid_checksum(extendable: bool, words: &[u16]) -> bool
    requires { All IsIndex words.now }
    ensures { result ≡ has_valid_checksum extendable words.now }
{
    let register = Register::after_customization_string(extendable).after_words(words);
    register.bits == 1
}

/// The checksum of these data words, as three indices in the word list.
pub(crate) fn checksum_of(extendable: bool, data_words: &[u16]) -> [u16; CHECKSUM_WORDS]
    requires { All IsIndex data_words.now }
    ensures in_range { All IsIndex result }
    ensures valid { IsValidChecksum extendable (data_words.now ++ result) }
    ensures only { (checksum : List ℕ) → length checksum ≡ checksum_length → All IsIndex checksum
        → IsValidChecksum extendable (data_words.now ++ checksum) → checksum ≡ result }
{
    let register = Register::after_customization_string(extendable)
        .after_words(data_words)
        .after_words(&[0, 0, 0]);
    [
        (register.bits >> (2 * WORD_BITS)) as u16,
        (register.bits >> WORD_BITS & COEFFICIENT) as u16,
        (register.bits & COEFFICIENT ^ 1) as u16,
    ]
}
