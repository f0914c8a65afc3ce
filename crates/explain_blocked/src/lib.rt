//! Diagnostics for blocked statements: their positions, their missing inputs, and the root causes and cycles of
//! waiting.
//!
//! Parts of the crate also serve the diagnostics for faults: locations, paths and values.
#![tactic(auto)]

pub mod blocked;
pub mod context;
mod graphs;
pub mod index;
pub mod names;
pub mod path;
mod reasons;
pub mod sites;
pub mod value_text;
mod waiting;
pub mod writers;
