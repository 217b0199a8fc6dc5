//! Tests of `s39_field`, and the examples of its doc comments in the order of the files. Their values are worked out by hand
//! or by a plain program in Python.
ghost use Rattle.std.specs.Prelude.{◌≡◌, ◌≢◌, IfOk};

use s39_field::{Field, Gf256, Gf1024, NotTenBits, eval, lanes, scaled_sum, weights};
use std::simd::prelude::*;
use std::test::Fail;

fn word(number: u16) -> Result<Gf1024, NotTenBits>
    ensures { IfOk result (λ element. element ≡ number) }
{
    Gf1024::try_from(number)
}

#[test]
fn products_of_words(rt: HostRuntime) -> Result<(), Fail> {
    for (a, b, product) in [(2, 512, 9), (56, 32, 777), (64, 32, 18), (2, 516, 1)] {
        assert_eq!(rt; word(a)?.mul(word(b)?), word(product)?);
    }
    Ok(())
}

#[test]
fn inverse_of_a_word(rt: HostRuntime) -> Result<(), Fail> {
    assert_eq!(rt; u16::from(word(2)?.inv()), 516);
    Ok(())
}

#[test]
fn products_of_bytes(rt: HostRuntime) {
    for (a, b, product) in [(0x53, 0xCA, 0x01), (0x57, 0x83, 0xC1)] {
        assert_eq!(rt; Gf256::from(a).mul(Gf256::from(b)), Gf256::from(product));
    }
}

#[test]
fn inverses_of_bytes(rt: HostRuntime) {
    assert_eq!(rt; u8::from(Gf256::from(0x02).inv()), 0x8D);
    assert_eq!(rt; u8::from(Gf256::from(0x03).inv()), 0xF6);
    assert_eq!(rt; u8::from(Gf256::from(0x53).inv()), 0xCA);
}

#[test]
fn roots_of_the_checksum_generator(rt: HostRuntime) -> Result<(), Fail> {
    let coefficients = [word(64)?, word(56)?, word(14)?, word(1)?];
    for (x, value) in [(2, 0), (4, 0), (8, 0), (1, 119)] {
        assert_eq!(rt; eval(&coefficients, word(x)?), word(value)?);
    }
    Ok(())
}

#[test]
fn ten_bits(rt: HostRuntime) {
    assert_eq!(rt; word(1024), Err(NotTenBits(1024)));
    assert_eq!(rt; word(1023).map(u16::from), Ok(1023));
}

fn two_weights(first: u8, second: u8, at: u8) -> [u8; 2]
    requires { first ≢ second }
{
    let places = [Gf256::from(first), Gf256::from(second)];
    let mut out = [Gf256::ZERO; 2];
    weights(&places, Gf256::from(at), &mut out);
    [u8::from(out[0]), u8::from(out[1])]
}

#[test]
fn weights_of_two_places(rt: HostRuntime) {
    assert_eq!(rt; two_weights(0x00, 0x01, 0xFF), [0xFE, 0xFF]);
    assert_eq!(rt; two_weights(0x00, 0x02, 0xFF), [0xF3, 0xF2]);
    assert_eq!(rt; two_weights(0x00, 0x02, 0xFE), [0x7E, 0x7F]);
    assert_eq!(rt; two_weights(0x00, 0x02, 0x02), [0x00, 0x01]);
}

#[test]
fn product_of_lanes(rt: HostRuntime) {
    assert_eq!(rt;
        lanes(Gf256::from(0x57), u8x16::splat(0x83)).to_array(),
        [0xC1; 16]
    );
    assert_eq!(rt;
        lanes(Gf256::from(0x00), u8x16::splat(0x83)).to_array(),
        [0x00; 16]
    );
    let row = [
        0x00, 0x01, 0x02, 0x03, 0x53, 0x80, 0x83, 0xFF, 0x10, 0x57, 0xCA, 0x8D, 0xF6, 0x7F, 0xC1,
        0xFE,
    ];
    let products = [
        0x00, 0xCA, 0x8F, 0x45, 0x01, 0xA0, 0xE5, 0x86, 0x14, 0x04, 0x75, 0x65, 0x46, 0x26, 0x3A,
        0x4C,
    ];
    assert_eq!(rt;
        lanes(Gf256::from(0xCA), u8x16::from_array(row)).to_array(),
        products
    );
}

#[test]
fn sum_of_rows(rt: HostRuntime) {
    let mut sums = [0x00, 0xFF, 0xC1];
    scaled_sum(&mut sums, Gf256::from(0x57), &[0x83; 3]);
    assert_eq!(rt; sums, [0xC1, 0x3E, 0x00]);
}

#[test]
fn sums_of_all_lengths(rt: HostRuntime) {
    let row = [0x83; 128];
    for length in [0, 1, 15, 16, 17, 31, 32, 33, 64, 127, 128] {
        let mut sums = [0x00; 129];
        scaled_sum(&mut sums[..length], Gf256::from(0x57), &row[..length]);
        for (place, sum) in sums.iter().enumerate() {
            let expected = if place < length { 0xC1 } else { 0x00 };
            assert_eq!(rt; *sum, expected);
        }
    }
}

#[test]
fn sums_by_zero_and_by_one(rt: HostRuntime) {
    let mut sums = [0x3C; 33];
    scaled_sum(&mut sums, Gf256::ZERO, &[0x83; 33]);
    assert_eq!(rt; sums, [0x3C; 33]);
    scaled_sum(&mut sums, Gf256::ONE, &[0x83; 33]);
    assert_eq!(rt; sums, [0xBF; 33]);
}

#[test]
fn examples_of_byte(rt: HostRuntime) {
    let product = Gf256::from(0x57).mul(Gf256::from(0x83));
    assert_eq!(rt; u8::from(product), 0xC1);
}

#[test]
fn examples_of_interpolation(rt: HostRuntime) {
    let places = [Gf256::from(0x00), Gf256::from(0x01)];
    let mut out = [Gf256::ZERO; 2];
    weights(&places, Gf256::from(0xFF), &mut out);
    assert_eq!(rt; out, [Gf256::from(0xFE), Gf256::from(0xFF)]);
}

#[test]
fn examples_of_the_crate(rt: HostRuntime) -> Result<(), Fail> {
    let a = Gf256::from(0x53);
    assert_eq!(rt; a.mul(Gf256::from(0xCA)), Gf256::ONE);
    let b = Gf1024::try_from(2)?;
    assert_eq!(rt; u16::from(b.mul(Gf1024::try_from(516)?)), 1);
    Ok(())
}

#[test]
fn examples_of_operations(rt: HostRuntime) {
    let a = Gf256::from(0x53);
    assert_eq!(rt; a.add(Gf256::from(0xCA)), Gf256::from(0x99));
    assert_eq!(rt; a.add(a), Gf256::ZERO);
    assert_eq!(rt; a.mul(Gf256::from(0xCA)), Gf256::ONE);
    assert_eq!(rt; a.inv(), Gf256::from(0xCA));
}

#[test]
fn examples_of_polynomial(rt: HostRuntime) {
    let coeffs = [Gf256::from(0x57), Gf256::from(0x83)];
    assert_eq!(rt; eval(&coeffs, Gf256::from(0)), Gf256::from(0x57));
    assert_eq!(rt; eval(&coeffs, Gf256::from(2)), Gf256::from(0x4A));
}

#[test]
fn examples_of_rows(rt: HostRuntime) {
    let products = lanes(Gf256::from(0x57), u8x16::splat(0x83));
    assert_eq!(rt; products.to_array(), [0xC1; 16]);

    let mut sums = [0x00, 0xFF, 0xC1];
    scaled_sum(&mut sums, Gf256::from(0x57), &[0x83; 3]);
    assert_eq!(rt; sums, [0xC1, 0x3E, 0x00]);
}

#[test]
fn examples_of_word(rt: HostRuntime) -> Result<(), Fail> {
    let product = Gf1024::try_from(512)?.mul(Gf1024::try_from(2)?);
    assert_eq!(rt; u16::from(product), 9);
    assert_eq!(rt; Gf1024::try_from(1024), Err(NotTenBits(1024)));
    Ok(())
}
