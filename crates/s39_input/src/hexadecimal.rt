//! Bytes in hexadecimal. They may be secret, so no branch and no address depends on a byte or on a digit.
ghost use Rattle.std.specs.Prelude.{◌≡◌, ◌*◌, ◌<◌, ◌≤◌, length, slice_index, unwrap_or, false, true, MatchResult};
ghost use Rattle.hex.specs.Hex.{decode_of, encode_lower, hex_digit_value, lower_digits};

/// More than any digit is worth.
const NO_DIGIT: u8 = 16;

/// The lower-case digit of a number below 16.
fn digit(number: u8) -> u8
    requires { number < 16 }
    ensures { result ≡ slice_index lower_digits number }
{
    let is_letter = (number + 6) >> 4;
    b'0' + number + is_letter * 39
}

/// Writes bytes in lower-case hexadecimal. There are twice as many digits as bytes.
///
/// ```rust
/// let mut digits = [0; 4];
/// write_hex(b"\x07\xbf", &mut digits);
/// assert_eq!(rt; digits, *b"07bf");
/// ```
pub fn write_hex(bytes: &[u8], digits: &mut [u8])
    requires { length digits.old ≡ 2 * length bytes.now }
    ensures { digits.new ≡ encode_lower bytes.now }
{
    for i in 0..bytes.len() {
        let high = digit(bytes[i] >> 4);
        let low = digit(bytes[i] & 0x0F);
        digits[2 * i] = high;
        digits[2 * i + 1] = low;
    }
}

/// All ones if a number is below a limit of at most 16, and else zero. A comparison could become a branch.
fn mask_below(number: u8, limit: u8) -> u8
    requires { limit ≤ 16 }
    ensures below { number < limit → result ≡ 255 }
    ensures others { limit ≤ number → result ≡ 0 }
{
    let above = (number >> 4) + 15 | (number & 0x0F) + (16 - limit);
    (above >> 4).wrapping_sub(1)
}

/// What a digit in either case is worth, or `NO_DIGIT` for another byte.
fn value_of(byte: u8) -> u8
    ensures { result ≡ unwrap_or (hex_digit_value byte) 16 }
{
    let figure = byte.wrapping_sub(b'0');
    let letter = (byte | 32).wrapping_sub(b'a');
    let is_figure = mask_below(figure, 10);
    let is_letter = mask_below(letter, 6);
    is_figure & figure | is_letter & letter.wrapping_add(10) | !(is_figure | is_letter) & NO_DIGIT
}

/// Reads bytes from their digits, which may be in either case, and returns whether all are digits. There are twice as
/// many digits as bytes. If one is another byte, what `bytes` then holds isn't specified.
///
/// ```rust
/// let mut bytes = [0; 2];
/// assert!(rt; read_hex(b"07bF", &mut bytes));
/// assert_eq!(rt; bytes, *b"\x07\xbf");
/// assert!(rt; !read_hex(b"07bg", &mut bytes));
/// ```
pub fn read_hex(digits: &[u8], bytes: &mut [u8]) -> bool
    requires { length digits.now ≡ 2 * length bytes.old }
    ensures { MatchResult (decode_of digits.now)
        (λ read. (result ≡ true) × (bytes.new ≡ read))
        (λ error. result ≡ false) }
{
    let mut worth = 0;
    for i in 0..bytes.len() {
        let high = value_of(digits[2 * i]);
        let low = value_of(digits[2 * i + 1]);
        bytes[i] = high << 4 | low;
        worth |= high | low;
    }
    worth < NO_DIGIT
}
