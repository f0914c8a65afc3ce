//! Parts of hints for blocked statements and faults: values of expressions, conditions that one side decides, the forms
//! of indices, and texts with names.
#![tactic(auto)]

pub mod expressions;
pub mod hint_text;
pub mod indices;
pub mod junctions;
