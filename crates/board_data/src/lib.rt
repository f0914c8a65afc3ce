//! Data access by lexical address: what the names of an instance refer to, the inputs an item misses, the answers to
//! its needs, and its stores and holds.
//!
//! The store, the instances and the tables are separate parameters, so that a caller keeps its facts about each.
#![tactic(auto)]

pub mod answers;
pub mod data;
pub mod holds;
pub mod inputs;
pub mod laws;
pub mod making;
pub mod storing;
