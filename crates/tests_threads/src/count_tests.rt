//! The numbers of engines and workers that a run may have.
use crate::asserts::holds;
use crate::threaded::{MANY, RunOutput, adds_up, code_of, is_cut, is_whole, run_of, tried};
use std::alloc::Global;
use std::process::Abort;
use std::sync::Wait;
use std::thread::Threads;
use workers::fault::RunFault;
use workers::gate::DirectGate;

/// Numbers of engines and workers that no run has.
const BAD: [(u8, u8); 8] = [
    (0, 0),
    (0, 1),
    (1, 0),
    (0, 64),
    (1, 64),
    (64, 1),
    (32, 33),
    (255, 255),
];

/// Returns true if a run was refused for its counts.
fn is_refused(answer: &Result<RunOutput, RunFault>) -> bool {
    matches!(answer, Err(RunFault::BadCount))
}

#[test]
fn there_are_some_of_each_and_64_of_both_at_most(rt: HostRuntime) {
    let code = code_of(&rt, rt.alloc(), b"printf(\"a\");");
    for counts in BAD {
        let answer = tried(&rt, rt.alloc(), &code, counts, MANY, &DirectGate);
        holds(&rt, is_refused(&answer));
    }
}

/// The script runs on these numbers of engines and workers.
fn runs_on<R: Threads + Wait + Sync + Abort>(
    rt: &R,
    alloc: Global,
    script: &[u8],
    counts: (u8, u8),
) {
    let ran = run_of(rt, alloc, script, counts, MANY, &DirectGate);
    adds_up(rt, &ran.1);
    is_whole(rt, alloc, &ran.0, 22);
}

#[test]
fn every_count_runs_a_script(rt: HostRuntime) {
    let script =
        b"int A[]; A[0] = 1; foreach i in [1:20] { A[i] = A[i-1] + 1; } printf(\"%i\", A[20]); foreach v in A { printf(\"%i\", v); }";
    for counts in [(1, 1), (1, 3), (2, 2), (1, 63), (63, 1), (32, 32)] {
        runs_on(&rt, rt.alloc(), script, counts);
    }
}

/// A run of the script is cut off.
fn is_cut_off<R: Threads + Wait + Sync + Abort>(rt: &R, alloc: Global, script: &[u8], limit: u32) {
    let ran = run_of(rt, alloc, script, (2, 6), limit, &DirectGate);
    is_cut(rt, alloc, &ran.0, limit);
}

#[test]
fn a_run_may_end_at_a_fault_or_the_limit(rt: HostRuntime) {
    let fault = b"int A[]; A[0] = 1; printf(\"%i\", A[3]);";
    is_cut_off(&rt, rt.alloc(), fault, MANY);
    let long = b"foreach i in [1:1000] { printf(\"%i\", i); }";
    is_cut_off(&rt, rt.alloc(), long, 777);
    is_cut_off(&rt, rt.alloc(), b"printf(\"a\");", 0);
}
