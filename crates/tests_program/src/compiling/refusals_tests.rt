//! The refusal of a text, and how it is shown.
use crate::asserts::{holds, is_equal};
use compile::fault::CompileFault;
use std::alloc::Global;
use std::process::Abort;
use swt_status::refusal::Refusal;
use swt_status::verdict::verdict;

/// The refusal of a text, if it has one.
fn refusal_of(rt: &impl Abort, alloc: Global, text: &[u8]) -> Option<Refusal> {
    verdict(alloc, alloc, text).expect(rt, "memory")
}

#[test]
fn a_script_has_no_refusal(rt: HostRuntime) {
    is_equal(&rt, refusal_of(&rt, rt.alloc(), b"printf(\"a\");"), None);
}

#[test]
fn a_text_that_is_no_script_has_one(rt: HostRuntime) {
    let refusal = refusal_of(&rt, rt.alloc(), b"int x = 1; x = 2;").expect(&rt, "a refusal");
    is_equal(&rt, refusal.text().as_str(), "S1 AssignedTwice 11 12");
}

#[test]
fn want_of_memory_is_none(rt: HostRuntime) {
    holds(&rt, Refusal::of(CompileFault::Memory).is_none());
}
