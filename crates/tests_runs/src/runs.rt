//! Runs on one thread, on several, and again by a trace.

use crate::sink::MemorySink;
use crate::told::{note, print_report, wrong};
use std::alloc::Global;
use std::io;
use std::sync::Wait;
use std::thread::Threads;
use swt_library::runs::{replay, run_one, run_threads};
use swt_library::scripts::CompiledScript;
use swt_library::{DirectGate, ReplayFault, Report, RunFault, write_trace};

/// Maximum number of times that a call is made.
const TRIES: u32 = 2;

/// The most events.
const MAX_EVENTS_OF_A_RUN: u32 = 1_000_000;

/// Runs code on one thread and then by the trace of that run, and prints both reports.
pub fn try_one_thread(rt: &HostRuntime, alloc: Global, code: &CompiledScript) -> io::Result<()> {
    let Some(report) = ran(rt, alloc, code)? else {
        return wrong(rt, "no run");
    };
    print_report(rt, &report)?;
    let Some(trace) = traced(rt, alloc, &report)? else {
        return wrong(rt, "no trace");
    };
    match again(rt, alloc, code, trace.as_slice())? {
        Some(again) => print_report(rt, &again),
        None => wrong(rt, "no replay"),
    }
}

/// A run on one thread.
fn ran(rt: &HostRuntime, alloc: Global, code: &CompiledScript) -> io::Result<Option<Report>> {
    for _ in 0..TRIES {
        match run_one(alloc, code, &[], MAX_EVENTS_OF_A_RUN) {
            Ok(report) => return Ok(Some(report)),
            Err(_) => note(rt, "run_one")?,
        }
    }
    Ok(None)
}

/// The trace of a run.
fn traced(rt: &HostRuntime, alloc: Global, report: &Report) -> io::Result<Option<Vec<u8>>> {
    for _ in 0..TRIES {
        let mut kept = MemorySink::new(alloc);
        match write_trace(report, &mut kept) {
            Ok(()) => return Ok(Some(kept.bytes)),
            Err(_) => note(rt, "trace")?,
        }
    }
    Ok(None)
}

/// The run of a trace.
fn again(
    rt: &HostRuntime,
    alloc: Global,
    code: &CompiledScript,
    trace: &[u8],
) -> io::Result<Option<Report>> {
    for _ in 0..TRIES {
        match replay(alloc, code, trace) {
            Ok(report) => return Ok(Some(report)),
            Err(ReplayFault::Memory) => note(rt, "replay")?,
            Err(_) => return Ok(None),
        }
    }
    Ok(None)
}

/// Runs code on two threads and prints the report. A failed allocation of a thread's start is distinguished from other allocations.
pub fn try_threads<R: Threads + Wait + Sync>(
    rt: &HostRuntime,
    threads: &R,
    alloc: Global,
    code: &CompiledScript,
) -> io::Result<()> {
    for _ in 0..TRIES {
        match run_threads(threads, alloc, code, 1, 1, MAX_EVENTS_OF_A_RUN, &DirectGate) {
            Ok((report, _)) => return print_report(rt, &report),
            Err(RunFault::Memory) => note(rt, "run_threads")?,
            Err(RunFault::Spawn) => note(rt, "start of a thread")?,
            Err(_) => return wrong(rt, "no run on threads"),
        }
    }
    wrong(rt, "no run on threads")
}
