//! Emission of cells and calls: converts the names, needs and expressions of a flow into code, and emits the entries
//! and data of the parts of a statement.
#![tactic(auto)]

pub mod cell_views;
pub mod cells;
pub mod data;
pub mod entries;
pub mod laws;
pub mod layout;
pub mod names;
pub mod needs;
pub mod operands;
pub mod operators;
pub mod outers;
pub mod own_cells;
pub mod parts;
pub mod plain;
