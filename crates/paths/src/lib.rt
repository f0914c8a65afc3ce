//! Block paths, statement instances and faults of a run, with the order in which listings print them.
//!
//! A script opens blocks within blocks: the branches of `if`, the turns of loops, and the bodies of called functions. A
//! statement instance is identified by its offset and by the path of its block instance, and a fault by its kind and
//! its statement. The order is by path, step by step from the outermost one, then by offset, then by fault number.
#![tactic(auto)]

mod faults;
mod statements;
mod steps;

pub use faults::{Fault, FaultKind};
pub use statements::StatementInstance;
pub use steps::Step;
