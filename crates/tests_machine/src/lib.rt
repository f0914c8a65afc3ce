//! Tests of code, of the board and of runs, over their public contracts. Nothing here runs outside of tests.
#![tactic(auto)]

#[cfg(test)]
mod asserts;
#[cfg(test)]
mod boards;
#[cfg(test)]
mod codes;
#[cfg(test)]
mod runs;
