//! Emission of code from a flow: an entry for each cell, call and statement, a body for each block, and the rights of
//! all entries.
#![tactic(auto)]

mod body;
mod emitter;
mod script;
mod statement;

pub use script::emit;
