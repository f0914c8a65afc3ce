//! Laws for computing the rounds of a script's meaning step by step: a search without mutual recursion, and functions
//! over its result.
//!
//! This crate has no executable code. Each public function has an empty body, and its contract is a law of the
//! definitions in `specs/`.
#![tactic(auto)]

pub mod keeping_laws;
pub mod telling_laws;
