//! Merging of nested waits in a flow: a `wait` whose content is exactly one `wait` absorbs it and keeps the headers of
//! both.
#![tactic(auto)]

pub mod script;
pub mod statement;

pub use script::merge;
