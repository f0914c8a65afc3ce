//! Flows: scripts with resolved names and separated cells, the intermediate form between syntax tree and code, in any
//! allocator.
//!
//! A flow keeps the nodes and offsets of its script, so that the meaning of the script follows from it: `specs/View`
//! defines the core of a flow. Beside the core it keeps what a listing of code shows: texts of names, shapes of
//! variables, and offsets of cells and blocks. Offsets are in bytes from the start of the text; nodes are the numbers
//! of the script's tree.
#![tactic(auto)]

pub mod cell;
mod declaring;
pub mod expression;
pub mod listed;
pub mod name;
mod naming;
mod scopes;
pub mod script;
pub mod statement;
pub mod whole;
