//! Single-threaded runs of a program on a board, and the report of a completed run.
#![tactic(auto)]

pub mod laws;
pub mod one;
pub mod report;
pub mod step;
pub mod stopped;
mod tally;
