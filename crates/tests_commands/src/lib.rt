//! Tests of the commands over files in memory, over their public contracts. Nothing here runs outside of tests.
#![tactic(auto)]

#[cfg(test)]
mod asserts;
#[cfg(test)]
mod beginnings_tests;
#[cfg(test)]
mod command_tests;
#[cfg(test)]
mod doing;
#[cfg(test)]
mod text_keys_tests;
#[cfg(test)]
mod whole_tests;
#[cfg(test)]
mod writes_tests;
