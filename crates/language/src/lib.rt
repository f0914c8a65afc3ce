//! The language as definitions in `specs/`: its grammar, typing, single assignment and meaning, with the few types that
//! programs share with them.
#![tactic(auto)]

pub mod operators;
pub mod tree;
