//! Tests of the crates that turn a flow into code, over their public contracts. Nothing here runs outside of tests.
#![tactic(auto)]

#[cfg(test)]
mod asserts;
#[cfg(test)]
mod body_numbers_tests;
#[cfg(test)]
mod granting_tests;
#[cfg(test)]
mod lists;
#[cfg(test)]
mod parts;
