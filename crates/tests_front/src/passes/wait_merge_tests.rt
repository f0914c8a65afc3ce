//! Waits one in another become one; one with two statements in it stays.

use crate::asserts::is_equal;
use crate::passes::flows::flow;
use flow::script::Flow;
use flow::statement::Action;
use std::alloc::Global;
use wait_merge::merge;

/// The number of further headers of the last statement, if it is a `wait`, and the number of statements in it.
fn headers(flow: &Flow<Global>) -> Option<(usize, usize)> {
    match &flow.body.statements.last()?.action {
        Action::Wait { inner, content, .. } => Some((inner.len(), content.statements.len())),
        _ => None,
    }
}

/// The numbers of headers and statements of a text whose waits were merged.
fn merged(alloc: Global, text: &[u8]) -> Option<(usize, usize)> {
    let found = merge(flow(alloc, text)?).ok()?;
    headers(&found)
}

#[test]
fn waits_one_in_another_become_one(rt: HostRuntime) {
    let text = b"int x = 1; wait (x) { wait (x) { wait (x) { } } }";
    is_equal(&rt, merged(rt.alloc(), text), Some((2, 0)));
}

#[test]
fn a_wait_with_something_beside_it_stays(rt: HostRuntime) {
    let text = b"int x = 1; wait (x) { wait (x) { } wait (x) { } }";
    is_equal(&rt, merged(rt.alloc(), text), Some((0, 2)));
}
