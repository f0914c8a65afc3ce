//! Drawing of a script for people: its statements in their blocks and functions, and the variables that pass between
//! them, as text for `dot`.
#![tactic(auto)]

mod analysis;
pub mod drawing;
mod elements;
pub mod text;
