//! Queries on the fact base about statements, headers and blocks: their cells and calls, choices of headers, targets,
//! and finished blocks.
#![tactic(auto)]

pub mod choices;
pub mod finished;
pub mod laws;
pub mod parts;
pub mod targets;
