//! Tests of runs on threads, over the public contracts of `workers`, with gates that hold what runs. Nothing here runs outside of tests.
#![tactic(auto)]

#[cfg(test)]
mod asserts;
#[cfg(test)]
mod count_tests;
#[cfg(test)]
mod gate_tests;
#[cfg(test)]
mod gates;
#[cfg(test)]
mod long_tests;
#[cfg(test)]
mod threaded;
