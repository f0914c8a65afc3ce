//! Chunks of the turns of a loop.

use crate::asserts::is_equal;
use values::loop_chunks::{are_left, chunk_of};

#[test]
fn turns_are_opened_by_chunks(rt: HostRuntime) {
    is_equal(&rt, chunk_of(0, 100), (0, 64));
    assert!(rt; are_left(64, 100));
    is_equal(&rt, chunk_of(1, 100), (64, 100));
    assert!(rt; !are_left(100, 100));
}
