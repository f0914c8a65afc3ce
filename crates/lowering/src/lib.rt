//! Lowering: converts a script's syntax tree to its flow, resolving names and separating cells and calls.
#![tactic(auto)]

pub mod expression;
pub mod names;
pub mod operators;
pub mod right;
pub mod script;
pub mod statement;

pub use script::lower;
