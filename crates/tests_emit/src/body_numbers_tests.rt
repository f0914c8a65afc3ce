//! Consecutive numbers of bodies.

use crate::asserts::is_equal;
use task_code::body_numbers::{behind, next, next_number};

#[test]
fn bodies_are_numbered_behind_those_of_functions(rt: HostRuntime) {
    is_equal(&rt, behind(2, 1), 3);
    is_equal(&rt, next_number(3, &Vec::new(rt.alloc())), 3);
    is_equal(&rt, next(3), 4);
}
