//! Diagnostics for faults, for runs cut off at a limit, and for invalid traces, with positions, values and paths.
//!
//! The values are computed again from the script's meaning, so that no run has to carry them.
#![tactic(auto)]

mod analysis;
pub mod extent;
mod fault_hints;
pub mod faults;
pub mod limits;
pub mod printed;
pub mod traces;
