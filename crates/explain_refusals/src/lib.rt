//! Diagnostics for refused scripts: line and column, the broken rule, the source line with the place marked, a related
//! place and a hint.
//!
//! The crate parses and checks a script again to find the refusal, so that no crate below has to carry lines and
//! columns.
#![tactic(auto)]

mod assignment;
pub mod diagnostic;
pub mod explanation;
mod texts;
mod typing;
