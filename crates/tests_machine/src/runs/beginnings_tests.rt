//! Replays of the prefixes of a trace.

use crate::asserts::is_equal;
use board_runs::report::{End, Report};
use std::alloc::Global;
use std::process::Abort;
use swt_trace::fault::ReplayFault;
use swt_trace::replay::replay;
use tests_codes::codes::hello;

const TRACE: &[u8] = b"swt-trace 1\nB 0 1\nE 0 1\nB 1 2\nE 1 2\n";

const ENDED: &[u8] = b"swt-trace 2\nB 0 1\nE 0 1\nB 1 2\nE 1 2\nQ\n";

/// The number of events of a run, and whether it is over, or why there is no run.
fn told(answer: &Result<Report, ReplayFault>) -> Result<(usize, bool), ReplayFault> {
    match answer {
        Ok(report) => Ok((report.history.len(), matches!(report.end, End::Quiet))),
        Err(fault) => Err(*fault),
    }
}

/// The result of a replay of a text as a trace of `printf("hello");`.
fn answer(rt: &impl Abort, alloc: Global, text: &[u8]) -> Result<(usize, bool), ReplayFault> {
    let code = hello(alloc).expect(rt, "a code");
    told(&replay(alloc, &code, text))
}

/// A prefix in version 1 is the trace of a run if it ends after a line; otherwise its last line is bad.
#[test]
fn beginnings_are_run_again(rt: HostRuntime) {
    is_equal(&rt, TRACE.len(), 36);
    for length in 0..36 {
        let wanted = if length >= 12 && length % 6 == 0 {
            Ok((length / 6 - 2, false))
        } else {
            Err(ReplayFault::BadLine((length as u64 / 6).max(1)))
        };
        is_equal(&rt, answer(&rt, rt.alloc(), &TRACE[..length]), wanted);
    }
    is_equal(&rt, answer(&rt, rt.alloc(), TRACE), Ok((4, true)));
}

/// A prefix in version 2 is not a trace: its last line is bad, or the missing line.
#[test]
fn beginnings_without_an_end_are_not(rt: HostRuntime) {
    is_equal(&rt, ENDED.len(), 38);
    for length in 0..38 {
        let bad = ReplayFault::BadLine((length as u64 / 6).max(1));
        is_equal(&rt, answer(&rt, rt.alloc(), &ENDED[..length]), Err(bad));
    }
    is_equal(&rt, answer(&rt, rt.alloc(), ENDED), Ok((4, true)));
}
