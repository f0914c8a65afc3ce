//! The status that a report of a run comes with, and its number.
use crate::asserts::is_equal;
use crate::doing::{code_of, report_of};
use std::alloc::Global;
use std::process::Abort;
use swt_status::status::{Status, status_of};

/// A run of the script comes with this status.
fn ends_with(rt: &impl Abort, alloc: Global, script: &[u8], status: Status) {
    let code = code_of(rt, alloc, script);
    let report = report_of(rt, alloc, &code, &[], 100);
    is_equal(rt, status_of(&report), status);
}

#[test]
fn a_report_has_its_status(rt: HostRuntime) {
    let alloc = rt.alloc();
    ends_with(&rt, alloc, b"printf(\"a\");", Status::Done);
    let overflow = b"int x = 9223372036854775807 + 1; printf(\"%i\", x);";
    ends_with(&rt, alloc, overflow, Status::Fault);
    let circle = b"int x; int y; x = y; y = x; printf(\"%i\", x);";
    ends_with(&rt, alloc, circle, Status::Blocked);
}

#[test]
fn a_status_has_its_number(rt: HostRuntime) {
    is_equal(&rt, Status::Done.number(), 0);
    is_equal(&rt, Status::Fault.number(), 3);
    is_equal(&rt, Status::Failed.number(), 7);
}
