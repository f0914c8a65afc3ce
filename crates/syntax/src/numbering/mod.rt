//! The numbers of the nodes of a tree, in reading order.

mod number_expressions;
pub mod number_script;
mod number_statements;
