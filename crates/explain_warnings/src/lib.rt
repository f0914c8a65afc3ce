//! Warnings about accepted scripts: variables, inputs and functions that nothing uses, and forms that are certainly
//! mistakes.
//!
//! Names are resolved by the table of the type check, so that variables of one name in different blocks are distinct.
//! The time is linear in the length of the script.
#![tactic(auto)]

mod mistakes;
pub mod name_use;
mod occurrences;
pub mod render;
mod sets;
pub mod warning;
