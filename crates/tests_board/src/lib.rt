//! Tests of the parts of the board, over their public contracts. Nothing here runs outside of tests.
#![tactic(auto)]

#[cfg(test)]
mod asserts;
#[cfg(test)]
mod instances;
#[cfg(test)]
mod items;
#[cfg(test)]
mod worlds;
