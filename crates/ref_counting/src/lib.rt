//! Computation of the rights of code: the names that each entry may read and write, itself or through bodies that it
//! opens.
//!
//! Names are propagated from bodies to the entries that open them by a worklist, up to the least fixed point.
#![tactic(auto)]

mod call_names;
pub mod code_tables;
mod declarations;
pub mod entry_name;
pub mod numbered_lists;
mod openings;
pub mod rights;
pub mod uses;
