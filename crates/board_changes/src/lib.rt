//! The changes that the end of an item makes to the instances and data of a board: stores, opened instances, holds
//! given up, and inputs that become known.
//!
//! Memory is reserved in a first call, so the second call, which makes the change, does not fail half-way.
#![tactic(auto)]

pub mod data_state;
pub mod instance_data;
pub mod laws;
pub mod opening;
pub mod room;
