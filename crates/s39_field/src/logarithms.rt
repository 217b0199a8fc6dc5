//! Products and inverses of bytes by logarithms: each nonzero byte is a power of 3. What the tables are asked for is the
//! places of shares, which are public. The time of an answer depends on them, so bytes of shares are multiplied by `lanes`.

ghost use Rattle.std.specs.Prelude.{◌≡◌, ◌≢◌, ◌+◌, ◌<◌};
ghost use Rattle.s39_field.specs.FieldProduct.{byte_field};
ghost use Rattle.s39_field.specs.Polynomial.{power};

use std::marker::Model;

/// The number of nonzero bytes, and so of the powers of 3: `3^255` is 1 again.
const NONZERO_BYTES: usize = 255;

/// The powers of 3: entry `i` is `3^i`.
#[rattlefmt::skip]
pub(crate) static POWERS: [u8; NONZERO_BYTES] = [
    0x01, 0x03, 0x05, 0x0F, 0x11, 0x33, 0x55, 0xFF, 0x1A, 0x2E, 0x72, 0x96, 0xA1, 0xF8, 0x13, 0x35,
    0x5F, 0xE1, 0x38, 0x48, 0xD8, 0x73, 0x95, 0xA4, 0xF7, 0x02, 0x06, 0x0A, 0x1E, 0x22, 0x66, 0xAA,
    0xE5, 0x34, 0x5C, 0xE4, 0x37, 0x59, 0xEB, 0x26, 0x6A, 0xBE, 0xD9, 0x70, 0x90, 0xAB, 0xE6, 0x31,
    0x53, 0xF5, 0x04, 0x0C, 0x14, 0x3C, 0x44, 0xCC, 0x4F, 0xD1, 0x68, 0xB8, 0xD3, 0x6E, 0xB2, 0xCD,
    0x4C, 0xD4, 0x67, 0xA9, 0xE0, 0x3B, 0x4D, 0xD7, 0x62, 0xA6, 0xF1, 0x08, 0x18, 0x28, 0x78, 0x88,
    0x83, 0x9E, 0xB9, 0xD0, 0x6B, 0xBD, 0xDC, 0x7F, 0x81, 0x98, 0xB3, 0xCE, 0x49, 0xDB, 0x76, 0x9A,
    0xB5, 0xC4, 0x57, 0xF9, 0x10, 0x30, 0x50, 0xF0, 0x0B, 0x1D, 0x27, 0x69, 0xBB, 0xD6, 0x61, 0xA3,
    0xFE, 0x19, 0x2B, 0x7D, 0x87, 0x92, 0xAD, 0xEC, 0x2F, 0x71, 0x93, 0xAE, 0xE9, 0x20, 0x60, 0xA0,
    0xFB, 0x16, 0x3A, 0x4E, 0xD2, 0x6D, 0xB7, 0xC2, 0x5D, 0xE7, 0x32, 0x56, 0xFA, 0x15, 0x3F, 0x41,
    0xC3, 0x5E, 0xE2, 0x3D, 0x47, 0xC9, 0x40, 0xC0, 0x5B, 0xED, 0x2C, 0x74, 0x9C, 0xBF, 0xDA, 0x75,
    0x9F, 0xBA, 0xD5, 0x64, 0xAC, 0xEF, 0x2A, 0x7E, 0x82, 0x9D, 0xBC, 0xDF, 0x7A, 0x8E, 0x89, 0x80,
    0x9B, 0xB6, 0xC1, 0x58, 0xE8, 0x23, 0x65, 0xAF, 0xEA, 0x25, 0x6F, 0xB1, 0xC8, 0x43, 0xC5, 0x54,
    0xFC, 0x1F, 0x21, 0x63, 0xA5, 0xF4, 0x07, 0x09, 0x1B, 0x2D, 0x77, 0x99, 0xB0, 0xCB, 0x46, 0xCA,
    0x45, 0xCF, 0x4A, 0xDE, 0x79, 0x8B, 0x86, 0x91, 0xA8, 0xE3, 0x3E, 0x42, 0xC6, 0x51, 0xF3, 0x0E,
    0x12, 0x36, 0x5A, 0xEE, 0x29, 0x7B, 0x8D, 0x8C, 0x8F, 0x8A, 0x85, 0x94, 0xA7, 0xF2, 0x0D, 0x17,
    0x39, 0x4B, 0xDD, 0x7C, 0x84, 0x97, 0xA2, 0xFD, 0x1C, 0x24, 0x6C, 0xB4, 0xC7, 0x52, 0xF6,
];

/// The logarithms to the base 3: entry `a - 1` is the `i` with `3^i = a`.
#[rattlefmt::skip]
pub(crate) static LOGARITHMS: [u8; NONZERO_BYTES] = [
      0,  25,   1,  50,   2,  26, 198,  75, 199,  27, 104,  51, 238, 223,   3, 100,
      4, 224,  14,  52, 141, 129, 239,  76, 113,   8, 200, 248, 105,  28, 193, 125,
    194,  29, 181, 249, 185,  39, 106,  77, 228, 166, 114, 154, 201,   9, 120, 101,
     47, 138,   5,  33,  15, 225,  36,  18, 240, 130,  69,  53, 147, 218, 142, 150,
    143, 219, 189,  54, 208, 206, 148,  19,  92, 210, 241,  64,  70, 131,  56, 102,
    221, 253,  48, 191,   6, 139,  98, 179,  37, 226, 152,  34, 136, 145,  16, 126,
    110,  72, 195, 163, 182,  30,  66,  58, 107,  40,  84, 250, 133,  61, 186,  43,
    121,  10,  21, 155, 159,  94, 202,  78, 212, 172, 229, 243, 115, 167,  87, 175,
     88, 168,  80, 244, 234, 214, 116,  79, 174, 233, 213, 231, 230, 173, 232,  44,
    215, 117, 122, 235,  22,  11, 245,  89, 203,  95, 176, 156, 169,  81, 160, 127,
     12, 246, 111,  23, 196,  73, 236, 216,  67,  31,  45, 164, 118, 123, 183, 204,
    187,  62,  90, 251,  96, 177, 134,  59,  82, 161, 108, 170,  85,  41, 157, 151,
    178, 135, 144,  97, 190, 220, 252, 188, 149, 207, 205,  55,  63,  91, 209,  83,
     57, 132,  60,  65, 162, 109,  71,  20,  42, 158,  93,  86, 242, 211, 171,  68,
     17, 146, 217,  35,  32,  46, 137, 180, 124, 184,  38, 119, 153, 227, 165, 103,
     74, 237, 222, 197,  49, 254,  24,  13,  99, 140, 128, 192, 247, 112,   7,
];

/// The `i` below 255 for which `a` is `3^i`.
fn logarithm(a: u8) -> usize
    requires { a ≢ 0 }
    ensures below { result < NONZERO_BYTES }
    ensures is { power byte_field 3 result ≡ a }
{
    usize::from(LOGARITHMS[usize::from(a) - 1])
}

/// An exponent of 3 below 255 that gives the same power.
fn reduced(i: usize) -> usize
    requires { i < NONZERO_BYTES + NONZERO_BYTES }
    ensures below { result < NONZERO_BYTES }
    ensures same { power byte_field 3 result ≡ power byte_field 3 i }
{
    if i < NONZERO_BYTES {
        i
    } else {
        i - NONZERO_BYTES
    }
}

/// The power `3^i`, for an `i` below twice 255.
fn power_of_three(i: usize) -> u8
    requires { i < NONZERO_BYTES + NONZERO_BYTES }
    ensures { result ≡ power byte_field 3 i }
{
    POWERS[reduced(i)]
}

/// The product of two bytes in the field.
pub(crate) fn product(a: u8, b: u8) -> u8
    ensures { result ≡ byte_field.mul a b }
{
    if a == 0 || b == 0 {
        0
    } else {
        power_of_three(logarithm(a) + logarithm(b))
    }
}

/// The inverse of a nonzero byte in the field.
pub(crate) fn inverse(a: u8) -> u8
    requires { a ≢ 0 }
    ensures { result ≡ byte_field.inv a }
{
    power_of_three(NONZERO_BYTES - logarithm(a))
}

/// A product of bytes to which factors are added: its logarithm, or `None` once a factor is zero. A factor takes one look
/// at the tables, and not three.
#[derive(Drop)]
pub(crate) struct LogProduct {
    exponent: Option<usize>,
}

impl Model for LogProduct {
    ghost use Rattle.std.specs.Prelude.{◌<◌, ℕ};
    ghost use Rattle.std.specs.Option.{option_map_or, ForSome};
    ghost use Rattle.s39_field.specs.FieldProduct.{byte_field, nonzero_bytes};
    ghost use Rattle.s39_field.specs.Polynomial.{power};

    ghost Value = { ℕ };

    ghost view = { λ p. option_map_or (power byte_field 3) p.exponent 0 };

    ghost invariant = { λ p. ForSome p.exponent (λ i. i < nonzero_bytes) };
}

impl LogProduct {
    /// The product of no bytes.
    pub(crate) fn one() -> LogProduct
        ensures { result ≡ 1 }
    {
        LogProduct { exponent: Some(0) }
    }

    /// The product with one factor more.
    pub(crate) fn times(self, factor: u8) -> LogProduct
        ensures { result ≡ byte_field.mul self factor }
    {
        match self.exponent {
            Some(i) if factor != 0 => LogProduct {
                exponent: Some(reduced(i + logarithm(factor))),
            },
            _ => LogProduct { exponent: None },
        }
    }

    /// The product as a byte.
    pub(crate) fn value(self) -> u8
        ensures { result ≡ self }
    {
        match self.exponent {
            Some(i) => power_of_three(i),
            None => 0,
        }
    }
}
