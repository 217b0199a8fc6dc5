//! Tests of `curve_field` and `curve_points`, and the examples of their doc comments. The multiples of the generator are
//! published ones, and two of a plain program in Python, which computes the published ones too. The keys that no point has are
//! those of BIP-340's test vectors 5 and 14.
use crate::expect::equal;
use curve_field::{FieldElement, Scalar};
use curve_points::{
    Affine, Point, compressed, generator, lift_x, multiple, public_point, secret_multiple,
};
use std::test::Fail;

fn scalar(bytes: &[u8; 32]) -> Result<Scalar, Fail> {
    match Scalar::from_bytes(bytes) {
        Some(scalar) => Ok(scalar),
        None => Err(Fail::new("the number isn't below the order")),
    }
}

#[test]
fn elements(rt: HostRuntime) {
    let seven = FieldElement::from_words(0, 0, 0, 7);
    let three = FieldElement::from_words(0, 0, 0, 3);
    assert!(rt; seven.mul(seven.inverse()).is(FieldElement::one()));
    assert!(rt; three.sub(seven).add(seven).is(three));
    assert!(rt; FieldElement::from_bytes(&[255; 32]).is_none());
    let nine = three.mul(three);
    let root = nine.square_root();
    assert!(rt; root.mul(root).is(nine));
    let no_square = FieldElement::zero().sub(nine);
    let power = no_square.square_root();
    assert!(rt; !power.mul(power).is(no_square));
    assert!(rt; FieldElement::zero().inverse().is(FieldElement::zero()));
    equal(&rt, FieldElement::zero().sub(seven).parity(), 0);
}

#[test]
fn scalars(rt: HostRuntime) -> Result<(), Fail> {
    let mut bytes = [0; 32];
    bytes[31] = 1;
    let one = scalar(&bytes)?;
    assert!(rt; Scalar::zero().add(one).to_bytes() == bytes);
    assert!(rt; Scalar::from_bytes(&[255; 32]).is_none());
    let mut order = ORDER;
    assert!(rt; Scalar::from_bytes(&order).is_none());
    order[31] = 0x40;
    assert!(rt; scalar(&order)?.add(one).is_zero());
    Ok(())
}

#[test]
fn sums(rt: HostRuntime) {
    let g = Point::Finite(generator());
    let twice = g.add(&g);
    equal(&rt, compressed(&twice), *MULTIPLES[1].1);
    equal(&rt, compressed(&twice.add(&g)), *MULTIPLES[2].1);
    equal(&rt, compressed(&g.add(&twice)), *MULTIPLES[2].1);
    equal(&rt, compressed(&Point::Infinity.add(&g)), *MULTIPLES[0].1);
    equal(&rt, compressed(&g.add(&Point::Infinity)), *MULTIPLES[0].1);
    let Affine { x, y } = generator();
    let opposite = Affine {
        x,
        y: FieldElement::zero().sub(y),
    };
    equal(&rt, compressed(&g.add(&Point::Finite(opposite))), [0; 33]);
}

#[test]
fn multiples(rt: HostRuntime) -> Result<(), Fail> {
    let mut bytes = [0; 32];
    bytes[31] = 1;
    let key = scalar(&bytes)?;
    let public = compressed(&public_point(key));
    assert_eq!(rt; &public[..4], b"\x02\x79\xbe\x66".as_slice());
    for (number, wanted) in MULTIPLES {
        let key = scalar(number)?;
        equal(&rt, compressed(&public_point(key)), *wanted);
        equal(&rt, compressed(&multiple(&generator(), key)), *wanted);
    }
    equal(
        &rt,
        compressed(&secret_multiple(&generator(), Scalar::zero())),
        [0; 33],
    );
    Ok(())
}

#[test]
fn lifted_points(rt: HostRuntime) {
    let lifted = lift_x(generator().x).expect(&rt, "a point has this x");
    assert!(rt; lifted.y.is(generator().y));
    assert!(rt; lift_x(FieldElement::from_words(0, 0, 0, 5)).is_none());
    for (_, wanted) in MULTIPLES {
        let mut bytes = [0; 32];
        bytes.copy_from_slice(&wanted[1..33]);
        let x = FieldElement::from_bytes(&bytes).expect(&rt, "an element");
        let point = lift_x(x).expect(&rt, "a point has this x");
        assert!(rt; point.x.to_bytes() == bytes);
        equal(&rt, point.y.parity(), 0);
    }
    let on_no_point = FieldElement::from_bytes(NO_POINT).expect(&rt, "an element");
    assert!(rt; lift_x(on_no_point).is_none());
    assert!(rt; FieldElement::from_bytes(PRIME_AND_ONE).is_none());
}

const NO_POINT: &[u8; 32] =
    b"\xee\xfd\xea\x4c\xdb\x67\x77\x50\xa4\x20\xfe\xe8\x07\xea\xcf\x21\xeb\x98\x98\xae\x79\xb9\x76\x87\x66\xe4\xfa\xa0\x4a\x2d\x4a\x34";

const PRIME_AND_ONE: &[u8; 32] =
    b"\xff\xff\xff\xff\xff\xff\xff\xff\xff\xff\xff\xff\xff\xff\xff\xff\xff\xff\xff\xff\xff\xff\xff\xff\xff\xff\xff\xfe\xff\xff\xfc\x30";

const ORDER: [u8; 32] =
    *b"\xff\xff\xff\xff\xff\xff\xff\xff\xff\xff\xff\xff\xff\xff\xff\xfe\xba\xae\xdc\xe6\xaf\x48\xa0\x3b\xbf\xd2\x5e\x8c\xd0\x36\x41\x41";

const MULTIPLES: [(&[u8; 32], &[u8; 33]); 8] = [
    (
        b"\x00\x00\x00\x00\x00\x00\x00\x00\x00\x00\x00\x00\x00\x00\x00\x00\x00\x00\x00\x00\x00\x00\x00\x00\x00\x00\x00\x00\x00\x00\x00\x01",
        b"\x02\x79\xbe\x66\x7e\xf9\xdc\xbb\xac\x55\xa0\x62\x95\xce\x87\x0b\x07\x02\x9b\xfc\xdb\x2d\xce\x28\xd9\x59\xf2\x81\x5b\x16\xf8\x17\x98",
    ),
    (
        b"\x00\x00\x00\x00\x00\x00\x00\x00\x00\x00\x00\x00\x00\x00\x00\x00\x00\x00\x00\x00\x00\x00\x00\x00\x00\x00\x00\x00\x00\x00\x00\x02",
        b"\x02\xc6\x04\x7f\x94\x41\xed\x7d\x6d\x30\x45\x40\x6e\x95\xc0\x7c\xd8\x5c\x77\x8e\x4b\x8c\xef\x3c\xa7\xab\xac\x09\xb9\x5c\x70\x9e\xe5",
    ),
    (
        b"\x00\x00\x00\x00\x00\x00\x00\x00\x00\x00\x00\x00\x00\x00\x00\x00\x00\x00\x00\x00\x00\x00\x00\x00\x00\x00\x00\x00\x00\x00\x00\x03",
        b"\x02\xf9\x30\x8a\x01\x92\x58\xc3\x10\x49\x34\x4f\x85\xf8\x9d\x52\x29\xb5\x31\xc8\x45\x83\x6f\x99\xb0\x86\x01\xf1\x13\xbc\xe0\x36\xf9",
    ),
    (
        b"\x00\x00\x00\x00\x00\x00\x00\x00\x00\x00\x00\x00\x00\x00\x00\x00\x00\x00\x00\x00\x00\x00\x00\x00\x00\x00\x00\x00\x00\x00\x00\x14",
        b"\x02\x4c\xe1\x19\xc9\x6e\x2f\xa3\x57\x20\x0b\x55\x9b\x2f\x7d\xd5\xa5\xf0\x2d\x52\x90\xaf\xf7\x4b\x03\xf3\xe4\x71\xb2\x73\x21\x1c\x97",
    ),
    (
        b"\x00\x00\x00\x00\x00\x00\x00\x00\x00\x00\x00\x00\x00\x00\x00\x00\x00\x00\x00\x00\x00\x00\x00\x00\x01\x8e\xbb\xb9\x5e\xed\x0e\x13",
        b"\x02\xa9\x0c\xc3\xd3\xf3\xe1\x46\xda\xad\xfc\x74\xca\x13\x72\x20\x7c\xb4\xb7\x25\xae\x70\x8c\xef\x71\x3a\x98\xed\xd7\x3d\x99\xef\x29",
    ),
    (
        b"\xaa\x5e\x28\xd6\xa9\x7a\x24\x79\xa6\x55\x27\xf7\x29\x03\x11\xa3\x62\x4d\x4c\xc0\xfa\x15\x78\x59\x8e\xe3\xc2\x61\x3b\xf9\x95\x22",
        b"\x02\x34\xf9\x46\x0f\x0e\x4f\x08\x39\x3d\x19\x2b\x3c\x51\x33\xa6\xba\x09\x9a\xa0\xad\x9f\xd5\x4e\xbc\xcf\xac\xdf\xa2\x39\xff\x49\xc6",
    ),
    (
        b"\xff\xff\xff\xff\xff\xff\xff\xff\xff\xff\xff\xff\xff\xff\xff\xfe\xba\xae\xdc\xe6\xaf\x48\xa0\x3b\xbf\xd2\x5e\x8c\xd0\x36\x41\x3f",
        b"\x03\xc6\x04\x7f\x94\x41\xed\x7d\x6d\x30\x45\x40\x6e\x95\xc0\x7c\xd8\x5c\x77\x8e\x4b\x8c\xef\x3c\xa7\xab\xac\x09\xb9\x5c\x70\x9e\xe5",
    ),
    (
        b"\xff\xff\xff\xff\xff\xff\xff\xff\xff\xff\xff\xff\xff\xff\xff\xfe\xba\xae\xdc\xe6\xaf\x48\xa0\x3b\xbf\xd2\x5e\x8c\xd0\x36\x41\x40",
        b"\x03\x79\xbe\x66\x7e\xf9\xdc\xbb\xac\x55\xa0\x62\x95\xce\x87\x0b\x07\x02\x9b\xfc\xdb\x2d\xce\x28\xd9\x59\xf2\x81\x5b\x16\xf8\x17\x98",
    ),
];
