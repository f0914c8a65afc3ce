//! Program tables, computed once from code before any run: resolved names, entry tables, and the data counts of each
//! body.
#![tactic(auto)]

mod bodies;
pub mod laws;
pub mod lexical_address;
mod name_count;
mod outer_holds;
pub mod program;
pub mod variable_index;
