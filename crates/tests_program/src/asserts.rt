//! What a test asserts, as functions, and what it owns, in boxes.

use std::alloc::Global;
use std::fmt::Debug;
use std::process::Abort;

/// Ends the test where the two are not equal, and shows both.
pub fn is_equal<T: PartialEq + Debug + Drop>(rt: &impl Abort, left: T, right: T) {
    assert_eq!(rt; left, right);
}

/// Ends the test where this does not hold.
pub fn holds(rt: &impl Abort, fact: bool) {
    assert!(rt; fact);
}

/// The only one of a list; ends the test where there are more or none.
pub fn only<'a, T>(rt: &impl Abort, list: &'a Vec<T>) -> &'a T {
    assert_eq!(rt; list.len(), 1);
    &list[0]
}

/// The value in a box: a test that owns a tree, a code or a report by itself takes long to prove.
pub fn boxed<T: Drop>(rt: &impl Abort, alloc: Global, value: T) -> Box<T> {
    Box::new(alloc, value).expect(rt, "memory")
}
