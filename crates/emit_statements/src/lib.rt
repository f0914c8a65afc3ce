//! Emission of statements: the entries and data that a statement adds to its block, except for the blocks nested in it.
#![tactic(auto)]

pub mod block_builder;
pub mod branches;
pub mod calls;
pub mod code_builder;
mod entry;
pub mod insert;
pub mod loops;
pub mod own;
pub mod parts;
mod steps;
pub mod waits;
