//! Up to three lost words of a mnemonic, from its checksum.
ghost use Rattle.std.specs.Prelude.{◌≡◌, ◌≢◌, ℕ, ◌+◌, ◌<◌, ◌≤◌, List, ◌∷◌, Bool, All, length, bit_xor, slice_index, slice_set};
ghost use Rattle.s39_field.specs.FieldProduct.{word_field};
ghost use Rattle.s39_field.specs.Polynomial.{power, value_at};
ghost use Rattle.s39_words.specs.Checksum.{customization_string, checked_polynomial, IsValidChecksum};
ghost use Rattle.s39_words.specs.Layout.{IsIndex, most_words};
ghost use Rattle.s39_repair.specs.Sums.{half, locator, sum_with, value_of_sums, ArePlaces, AgreeElsewhere};

use arrayvec::ArrayVec;
use s39_field::{Field, Gf1024};
use s39_words::MAX_WORDS;

/// The words of a mnemonic, as indices in the word list.
pub(crate) type Indices = ArrayVec<u16, MAX_WORDS>;

/// Three different places of words, or places right behind the last word.
#[derive(Clone, Copy)]
pub(crate) struct Places {
    pub(crate) first: usize,
    pub(crate) second: usize,
    pub(crate) third: usize,
}

/// The most coefficients of the polynomial that a checksum makes a multiple of the generator.
const MAX_COEFFICIENTS: usize = 18 + MAX_WORDS;

/// The coefficients of that polynomial.
type Coefficients = ArrayVec<u16, MAX_COEFFICIENTS>;

/// The values of that polynomial at the first three powers of a half.
#[derive(Clone, Copy)]
pub(crate) struct Sums {
    pub(crate) first: Gf1024,
    pub(crate) second: Gf1024,
    pub(crate) third: Gf1024,
}

/// A number as an element of the field.
pub(crate) fn element(number: u16) -> Gf1024
    requires { IsIndex number }
    ensures { result ≡ number }
{
    Gf1024::try_from(number).unwrap_or(Gf1024::ZERO)
}

/// The customization string.
fn customization_string(extendable: bool) -> &'static [u8]
    ensures { result.now ≡ customization_string extendable }
{
    if extendable {
        b"shamir_extendable"
    } else {
        b"shamir"
    }
}

/// The coefficients before those of the words.
fn coefficients_before(extendable: bool) -> Coefficients
    ensures { result.items ≡ 1 ∷ customization_string extendable }
{
    let string = customization_string(extendable);
    let mut coefficients = Coefficients::new();
    coefficients.push(1);
    for byte in string {
        coefficients.push(u16::from(*byte));
    }
    coefficients
}

/// The polynomial that a valid checksum makes a multiple of the generator.
fn checked_polynomial(extendable: bool, words: &[u16]) -> Coefficients
    requires in_list { All IsIndex words.now }
    requires short { length words.now ≤ most_words }
    ensures same { result.items ≡ checked_polynomial extendable words.now }
    ensures in_range { All IsIndex result.items }
{
    let mut coefficients = coefficients_before(extendable);
    coefficients.try_extend_from_slice(words).unwrap();
    let last = coefficients.pop().unwrap_or(0);
    coefficients.push(last ^ 1);
    coefficients
}

/// The value of a polynomial, the coefficient of the lowest power first.
fn value_at(coefficients: &[u16], x: Gf1024) -> Gf1024
    requires { All IsIndex coefficients.now }
    ensures { result ≡ value_at word_field coefficients.now x }
{
    let mut value = Gf1024::ZERO;
    let mut i = coefficients.len();
    while i > 0 {
        i -= 1;
        value = value.mul(x).add(element(coefficients[i]));
    }
    value
}

/// The inverse of 2 in the field.
pub(crate) const HALF: u16 = 516;

/// The inverse of 2, to the power of n.
fn power_of_half(n: usize) -> Gf1024
    ensures { result ≡ power word_field half n }
{
    let half = element(HALF);
    let mut power = Gf1024::ONE;
    for _i in 0..n {
        power = power.mul(half);
    }
    power
}

/// The power of a half that belongs to the coefficient of a word.
pub(crate) fn locator(extendable: bool, place: usize) -> Gf1024
    requires { place ≤ most_words + 3 }
    ensures { result ≡ locator extendable place }
{
    let before = if extendable { 18 } else { 7 };
    power_of_half(before + place)
}

/// The values of the polynomial with these words.
pub(crate) fn sums_with(extendable: bool, words: &[u16]) -> Sums
    requires in_list { All IsIndex words.now }
    requires short { length words.now ≤ most_words }
    ensures first { result.first ≡ sum_with extendable words.now 1 }
    ensures second { result.second ≡ sum_with extendable words.now 2 }
    ensures third { result.third ≡ sum_with extendable words.now 3 }
{
    let coefficients = checked_polynomial(extendable, words);
    let coefficients = coefficients.as_slice();
    Sums {
        first: value_at(coefficients, power_of_half(1)),
        second: value_at(coefficients, power_of_half(2)),
        third: value_at(coefficients, power_of_half(3)),
    }
}

/// The value at `x` of which these are the sums, if the other values are at `y` and `z`.
fn value_of_sums(sums: &Sums, x: Gf1024, y: Gf1024, z: Gf1024) -> u16
    requires nonzero { x ≢ 0 }
    requires other { x ≢ y }
    requires another { x ≢ z }
    ensures value { result ≡ value_of_sums word_field sums.now.first sums.now.second sums.now.third x y z }
    ensures in_list { IsIndex result }
{
    let once = sums.second.add(y.mul(sums.first));
    let twice = sums.third.add(y.mul(sums.second));
    let product = x.add(y).mul(x.add(z)).mul(x);
    u16::from(twice.add(z.mul(once)).mul(product.inv()))
}

/// Writes a word with this change, if there is a word at this place.
pub(crate) fn change(found: &mut Indices, words: &[u16], place: usize, change: u16)
    requires { length found.old.items ≡ length words.now }
    ensures { found.new.items
        ≡ slice_set found.old.items place (bit_xor (slice_index words.now place) change) }
{
    if place < words.len() {
        let found = found.as_mut_slice();
        found[place] = words[place] ^ change;
    }
}

/// The only words with a valid checksum that agree with these but at three places, if there are such words.
pub(crate) fn lost_words(extendable: bool, words: &[u16], places: Places) -> Indices
    requires in_list { All IsIndex words.now }
    requires short { length words.now ≤ most_words }
    requires places { ArePlaces places.first places.second places.third }
    ensures same_count { length result.items ≡ length words.now }
    ensures in_list { All IsIndex result.items }
    ensures only { (mnemonic : List ℕ) → All IsIndex mnemonic → IsValidChecksum extendable mnemonic
        → AgreeElsewhere words.now mnemonic places.first places.second places.third
        → result.items ≡ mnemonic }
{
    let sums = sums_with(extendable, words);
    let x = locator(extendable, places.first);
    let y = locator(extendable, places.second);
    let z = locator(extendable, places.third);
    let mut found = Indices::new();
    found.try_extend_from_slice(words).unwrap();
    let first = value_of_sums(&sums, x, y, z);
    let second = value_of_sums(&sums, y, x, z);
    let third = value_of_sums(&sums, z, x, y);
    change(&mut found, words, places.first, first);
    change(&mut found, words, places.second, second);
    change(&mut found, words, places.third, third);
    found
}
