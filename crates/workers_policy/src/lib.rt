//! The scheduling policy of a run on threads: how many items a thread begins at once, in which order, and when threads
//! park and wake.
//!
//! No contract depends on it: whatever these functions return, a run of `workers` is a run of its code. So a change here
//! needs no proof but that of safety and termination. `Tuning` has every number that was chosen by measurement.
#![tactic(auto)]

pub mod active_threads;
pub mod counters;
pub mod ready_hints;
pub mod tuning;
pub mod wake_signal;
