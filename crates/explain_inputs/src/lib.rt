//! Missing inputs of blocked statements: what a statement reads, and which of these inputs are not known.
#![tactic(auto)]

pub mod blocked_statement;
pub mod input;
pub mod missing;
