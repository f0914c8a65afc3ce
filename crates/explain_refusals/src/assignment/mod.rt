//! Explanations of faults of single assignment, and hints about variables that a loop or some branches assign.

pub mod branch_hints;
pub mod explain_assignments;
pub mod loop_hints;
