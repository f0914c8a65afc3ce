//! Beginnings of a trace, and the command that runs them again.
use crate::asserts::is_equal;
use crate::doing::{WIDE, perform};
use std::alloc::Global;
use std::process::Abort;
use std::sync::Wait;
use std::thread::Threads;

const HELLO: &[u8] = b"printf(\"hello\");";

const TRACE: &[u8] = b"swt-trace 1\nB 0 1\nE 0 1\nB 1 2\nE 1 2\n";

/// The output, the error output and the status for a prefix of a trace.
fn replays<R: Threads + Wait + Sync + Abort>(rt: &R, alloc: Global, trace: &[u8], wanted: &str) {
    let done = perform(rt, alloc, "replay f t", &[Some(HELLO), Some(trace)], WIDE);
    is_equal(rt, done.text(rt, alloc).as_str(), wanted);
}

/// A prefix that ends after a line is the trace of a run that met its limit; the last line of any other prefix is bad.
#[test]
fn beginnings_of_a_trace_are_answered(rt: HostRuntime) {
    is_equal(&rt, TRACE.len(), 36);
    for length in 0..36 {
        let wanted = if length >= 12 && length % 6 == 0 {
            format!(in rt.alloc(); "swt: limit {}\n|||5", length / 6 - 2)
        } else {
            format!(in rt.alloc(); "|swt: T1 BadLine {}\n||7", (length / 6).max(1))
        };
        let wanted = wanted.expect(&rt, "memory");
        replays(&rt, rt.alloc(), &TRACE[..length], wanted.as_str());
    }
    replays(&rt, rt.alloc(), TRACE, "hello\n|||0");
}
