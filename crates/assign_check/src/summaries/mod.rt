//! Faults of variables: a summary of the uses of each, by which its declaration is judged.

pub mod table;
pub mod use_summary;
