//! Constant folding: replaces expressions of literals by the literals that they evaluate to.
#![tactic(auto)]

pub mod evaluation;
pub mod expression;
pub mod laws;
pub mod literal_values;
pub mod script;
pub mod statement;

pub use script::fold;
