//! Tests of a process from its words to its status, on a machine in memory.
#![tactic(auto)]

pub mod fake;
#[cfg(test)]
mod tests;
