//! Results of a script's meaning after some rounds: its lines, faults and blocked statements, and the fixpoint of what
//! is live and closed.
#![tactic(auto)]

pub mod blocked;
pub mod fixpoint;
pub mod knowledge;
pub mod laws;
mod lists;
pub mod results;

pub use paths::{Fault, FaultKind, StatementInstance, Step};
