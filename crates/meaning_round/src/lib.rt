//! One round of the meaning of a script: the state of the evaluation, and the facts that the next round adds.
//!
//! Each round evaluates the live statements from the facts of the rounds before, and from nothing else. The evaluation
//! is incremental: a worklist holds the statements that may have a new fact, and events wake the others. The meaning is
//! the reference for all code that runs scripts.
#![tactic(auto)]

pub mod derive;
mod derive_cells;
mod derive_statement;
pub mod faults;
pub mod laws;
pub mod never_closed;
mod reads;
pub mod site;
pub mod state;
pub mod worklist;
