//! Items and block instances of a board: the item table, the slab of instances, their slots and paths, and the code
//! that creates and removes them.
//!
//! Effects, data and readiness are computed in the crates above; this crate only stores and places.
#![tactic(auto)]

pub mod instance;
pub mod item;
pub mod laws;
pub mod packed;
pub mod parent_key;
pub mod pending;
pub mod placing;
pub mod turns;
