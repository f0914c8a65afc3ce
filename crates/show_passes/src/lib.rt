//! What a script is after a pass of the compiler, as text for a reader: a syntax tree with or without types, and a flow.
#![tactic(auto)]

mod flow_lines;
pub mod flow_statements;
mod text;
mod tree_lines;
pub mod tree_statements;
