//! Occurrences of variable names in a script: where each variable is declared and assigned, and which variables an
//! `if` assigns only in part.
//!
//! The lookups compare names by their bytes. They serve the texts about refused scripts.
#![tactic(auto)]

pub mod control_paths;
mod innermost_if;
pub mod lookup;
pub mod occurrence;
pub mod occurrences;
pub mod partial_assignment;
pub mod refused_script;
