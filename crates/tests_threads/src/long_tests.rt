//! A long run on as many threads as there may be.
use crate::asserts::{holds, is_equal};
use crate::threaded::{MANY, adds_up, run_of};
use board_runs::report::{End, Report};
use workers::gate::DirectGate;

/// The tallies of a report, added up.
fn told(report: &Report) -> u32 {
    let mut told = 0u32;
    for tally in report.tallies {
        told = told.saturating_add(tally);
    }
    told
}

/// Returns true if the run was cut off at the limit.
fn is_limited(report: &Report) -> bool {
    matches!(report.end, End::Limit)
}

#[test]
fn ten_million_events_on_64_threads(rt: HostRuntime) {
    let script = b"foreach i in [1:4000000] { int x = i + 1; int y = x * 2; }";
    let ran = run_of(&rt, rt.alloc(), script, (8, 56), MANY, &DirectGate);
    holds(&rt, is_limited(&ran.0));
    is_equal(&rt, ran.0.history.len(), 10_000_000);
    is_equal(&rt, told(&ran.0), MANY);
    adds_up(&rt, &ran.1);
}
