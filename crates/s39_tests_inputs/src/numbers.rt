//! The numbers that documents and header promise.

use crate::expect::equal;
use s39_kdf::{MAX_EXPONENT, MAX_SECRET_BYTES, MIN_SECRET_BYTES};
use s39_set::{MAX_GROUPS, MAX_MEMBERS, MAX_NAMES, MAX_STEP_LOOKS, MAX_TEST_LOOKS};
use s39_words::MAX_TEXT_BYTES;

#[test]
fn limits(rt: HostRuntime) {
    equal(&rt, [MIN_SECRET_BYTES, MAX_SECRET_BYTES], [16, 128]);
    equal(&rt, [MAX_EXPONENT, MAX_GROUPS, MAX_MEMBERS], [15, 16, 16]);
    equal(&rt, [MAX_NAMES, MAX_TEXT_BYTES], [256, 989]);
    equal(&rt, [MAX_TEST_LOOKS, MAX_STEP_LOOKS], [1_024, 16_384]);
}
