//! Numbers of options: a given one, none, and words that are not a number in the range.

use crate::asserts::is_equal;
use swt_arguments::option_number::{number, number_within};

#[test]
fn an_option_gives_its_number(rt: HostRuntime) {
    is_equal(&rt, number(Some("40"), 1, 63, 3), Some(40));
    is_equal(&rt, number(None, 1, 63, 3), Some(3));
    is_equal(&rt, number(Some("64"), 1, 63, 3), None);
}

#[test]
fn a_text_is_a_number_between_two(rt: HostRuntime) {
    is_equal(&rt, number_within("0", 0, 4_294_967_295), Some(0));
    is_equal(&rt, number_within("-1", 0, 63), None);
    is_equal(&rt, number_within("1x", 0, 63), None);
}
