//! Tests of the crates that the board stands on, over their public contracts. Nothing here runs outside of tests.
#![tactic(auto)]

#[cfg(test)]
mod asserts;
#[cfg(test)]
mod data_store_tests;
#[cfg(test)]
mod option_numbers_tests;
#[cfg(test)]
mod pools;
#[cfg(test)]
mod waiting;
