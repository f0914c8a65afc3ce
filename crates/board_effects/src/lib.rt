//! The effect of a completed item, computed before anything changes: what it stores, prints or opens, or the fault that
//! it meets.
//!
//! The crate only reads the board. `EndingItem` computes the effect of an entry, `script_effect` that of the opening of
//! the script.
#![tactic(auto)]

pub mod effect;
pub mod laws;
mod opened_blocks;
mod present;
mod spare_lists;

pub use opened_blocks::script_effect;
