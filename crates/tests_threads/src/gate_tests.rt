//! Leaf items that run side by side, offers and draws, and what a gate learns of a run.
use crate::asserts::{holds, is_equal};
use crate::gates::{BarrierGate, ProgressGate};
use crate::threaded::{MANY, is_whole, run_of};
use std::alloc::Global;
use std::process::Abort;
use std::sync::Wait;
use std::thread::Threads;
use workers::run::PoolCount;

/// The leaf items of the script run on as many workers, each held until the gate opens.
fn run_side_by_side<R: Threads + Wait + Sync + Abort>(
    rt: &R,
    alloc: Global,
    script: &[u8],
    leaves: u8,
    gate: &BarrierGate<'_>,
) {
    let ran = run_of(rt, alloc, script, (1, leaves), MANY, gate);
    is_equal(rt, gate.ran_out(), false);
    is_whole(rt, alloc, &ran.0, leaves as usize);
}

#[test]
fn two_leaves_run_side_by_side(rt: HostRuntime) {
    let script = b"printf(\"a\"); printf(\"b\");";
    let gate = BarrierGate::new(&rt, 1, 2, 0);
    run_side_by_side(&rt, rt.alloc(), script, 2, &gate);
}

#[test]
fn eight_leaves_run_side_by_side(rt: HostRuntime) {
    let script =
        b"printf(\"a\"); printf(\"b\"); printf(\"c\"); printf(\"d\"); printf(\"e\"); printf(\"f\"); printf(\"g\"); printf(\"h\");";
    let gate = BarrierGate::new(&rt, 1, 8, 0);
    run_side_by_side(&rt, rt.alloc(), script, 8, &gate);
}

/// Each item of that loop that became ready was offered or found no hole, and some were drawn.
fn were_offered(rt: &impl Abort, count: &PoolCount) {
    is_equal(rt, count.offered.saturating_add(count.full), 1016);
    holds(rt, count.drawn > 0);
}

#[test]
fn what_a_loop_makes_ready_is_offered_and_drawn(rt: HostRuntime) {
    let script = b"foreach i in [1:1000] { printf(\"%i\", i); }";
    let gate = BarrierGate::new(&rt, 1, 1, 3);
    let ran = run_of(&rt, rt.alloc(), script, (1, 1), MANY, &gate);
    is_equal(&rt, (gate.ran_out(), ran.0.history.len()), (false, 2034));
    were_offered(&rt, &ran.1);
    is_whole(&rt, rt.alloc(), &ran.0, 1000);
}

#[test]
fn a_gate_learns_how_far_the_run_is(rt: HostRuntime) {
    let script =
        b"int x; int y; x = y; foreach i in [1:100] { printf(\"%i\", i); } foreach i in [1:10] { printf(\"%i\", x); } y = 2 + x;";
    let gate = ProgressGate::new();
    let ran = run_of(&rt, rt.alloc(), script, (1, 3), MANY, &gate);
    is_equal(&rt, ran.0.lines.len(), 100);
    let events = ran.0.history.len() as u64;
    is_equal(&rt, gate.last(), (events, 100, 12));
}
