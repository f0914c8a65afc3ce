//! Explanations of type faults: sentences about types, names, calls and formats, and hints about expressions of a wrong
//! type.

pub mod array_hints;
pub mod explain_counts;
pub mod explain_formats;
pub mod explain_names_unknown;
pub mod explain_types;
pub mod type_hints;
