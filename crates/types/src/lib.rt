//! Type checker and name resolution: decides if a script is well typed, and records what each of its names refers to.
//!
//! A variable is visible from the end of its name to the end of its block, and in nested blocks. The outputs and inputs
//! of a function and the variables of a loop belong to the body that follows. Variables and functions have separate
//! namespaces.
#![tactic(auto)]

mod builtins;
mod expressions;
pub mod fault;
mod functions;
pub mod laws;
mod scope;
mod script;
mod signatures;
mod statements;
pub mod typed;

pub use script::check;
