//! The parts of the lines of a syntax tree: expressions, and the types of variables and expressions.

pub mod tree_expressions;
pub mod tree_page;
pub mod type_table;
