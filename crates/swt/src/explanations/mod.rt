//! Explanations of how a command ended: by the meaning of the script, or by the file, the trace or the number of
//! threads that failed.

pub mod ending;
pub mod explain;
pub mod failures;
