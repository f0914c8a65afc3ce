//! An index of all statements of a flow, with lookup by offset of the statement there that can be blocked.
#![tactic(auto)]

pub mod site;
pub mod statement_index;
mod walk;
