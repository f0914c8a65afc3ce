//! Small codes that tests of the machine run, and a script that is too long to be written out.
#![tactic(auto)]

pub mod codes;
pub mod scripts;
