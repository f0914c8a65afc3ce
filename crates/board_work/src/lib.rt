//! Units of work that a machine passes to its workers: an item with its answers, and the computed outcome that comes
//! back.
#![tactic(auto)]

pub mod answer;
pub mod evaluation;
mod numbers;
pub mod outcome;
pub mod view_eq;
pub mod work;
