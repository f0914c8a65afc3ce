//! Traces that are run again, and where a command stops at one.
use crate::asserts::{boxed, is_equal};
use crate::doing::code_of;
use board_runs::report::Report;
use std::alloc::Global;
use std::process::Abort;
use swt_status::failure::CommandFailure;
use swt_status::stop::CommandStop;
use swt_status::trace::report_of_trace;

/// The run that a trace of `hello` is of, or where a command stops at it.
fn traced(rt: &impl Abort, alloc: Global, trace: &[u8]) -> Box<Result<Report, CommandStop>> {
    let code = code_of(rt, alloc, b"printf(\"hello\");");
    boxed(rt, alloc, report_of_trace(alloc, &code, trace))
}

/// Returns the number of events a run has, or where a command stops.
fn events_of(run: &Result<Report, CommandStop>) -> Result<usize, CommandStop> {
    match run {
        Ok(report) => Ok(report.history.len()),
        Err(stop) => Err(*stop),
    }
}

/// The run of a trace of `hello` has this number of events, or a command stops there.
fn has_events(rt: &impl Abort, alloc: Global, trace: &[u8], wanted: Result<usize, CommandStop>) {
    is_equal(rt, events_of(&traced(rt, alloc, trace)), wanted);
}

/// A command stops at the second file.
fn stop(trouble: CommandFailure) -> Result<usize, CommandStop> {
    Err(CommandStop { place: 1, trouble })
}

#[test]
fn a_trace_is_run_again(rt: HostRuntime) {
    has_events(&rt, rt.alloc(), b"swt-trace 1\nB 0 1\nE 0 1\n", Ok(2));
    let not_a_run = stop(CommandFailure::NotARun(2));
    has_events(&rt, rt.alloc(), b"swt-trace 1\nE 0 1\n", not_a_run);
    let wrong_end = stop(CommandFailure::WrongEnd(3));
    has_events(&rt, rt.alloc(), b"swt-trace 2\nB 0 1\nQ\n", wrong_end);
    let bad_line = stop(CommandFailure::BadLine(1));
    has_events(&rt, rt.alloc(), b"no trace\n", bad_line);
}

#[test]
fn trouble_has_a_status(rt: HostRuntime) {
    is_equal(&rt, CommandFailure::NotARun(2).status().number(), 7);
    is_equal(&rt, CommandFailure::WrongEnd(2).status().number(), 7);
    is_equal(&rt, CommandFailure::BadCount.status().number(), 2);
}
