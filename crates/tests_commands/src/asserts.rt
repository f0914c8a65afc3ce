//! What a test asserts, as functions, and what it owns, in boxes.

use std::alloc::Global;
use std::fmt::Debug;
use std::process::Abort;

/// Ends the test where the two are not equal, and shows both.
pub fn is_equal<T: PartialEq + Debug + Drop>(rt: &impl Abort, left: T, right: T) {
    assert_eq!(rt; left, right);
}

/// Ends the test where this does not hold.
pub fn holds(rt: &impl Abort, fact: bool) {
    assert!(rt; fact);
}

/// The value in a box: a test that owns a tree, a code or a report by itself takes long to prove.
pub fn boxed<T: Drop>(rt: &impl Abort, alloc: Global, value: T) -> Box<T> {
    Box::new(alloc, value).expect(rt, "memory")
}
