//! Tests of the crates from a script to its code, its meaning and its runs, and of the command line, over their public contracts.
//! Nothing here runs outside of tests.
#![tactic(auto)]

#[cfg(test)]
mod asserts;
#[cfg(test)]
mod command_lines;
#[cfg(test)]
mod compiling;
#[cfg(test)]
mod doing;
#[cfg(test)]
mod meanings;
#[cfg(test)]
mod runs;
