//! Answers beside what they are to be.

use std::fmt::Debug;
use std::process::Abort;

/// Two values are equal. This contract and the next say nothing: what a comparison found is of no use to the proof of
/// the test that asks for it. The length that an index rests on is compared by `assert_eq!`.
pub fn same<T: PartialEq + Debug>(rt: &impl Abort, left: &T, right: &T) {
    assert_eq!(rt; *left, *right);
}

/// Two slices have equal elements.
pub fn same_list<T: PartialEq + Debug>(rt: &impl Abort, left: &[T], right: &[T]) {
    assert_eq!(rt; left, right);
}
