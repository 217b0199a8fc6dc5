//! Comparisons in tests, which are proved sooner as calls than where they stand (DECISIONS.md, "Tests").

use std::fmt::Debug;
use std::process::Abort;

/// Stops the test if the two differ.
pub(crate) fn equal<T: PartialEq + Debug + Copy>(rt: &impl Abort, value: T, wanted: T) {
    assert_eq!(rt; value, wanted);
}
