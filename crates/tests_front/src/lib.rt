//! Tests of the front end's crates, over their public contracts. Nothing here runs outside of tests.
#![tactic(auto)]

#[cfg(test)]
mod asserts;
#[cfg(test)]
mod checks;
#[cfg(test)]
mod data;
#[cfg(test)]
mod passes;
#[cfg(test)]
mod rows;
#[cfg(test)]
mod trees;
