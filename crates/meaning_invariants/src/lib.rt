//! Invariants of the evaluation of a script by rounds: a program holds exactly the facts that are known.
//!
//! This crate has no executable code. Each public function has an empty body, and its contract is a law of the
//! definitions in `specs/`.
#![tactic(auto)]

pub mod ended_laws;
pub mod held_laws;
pub mod opened_laws;
