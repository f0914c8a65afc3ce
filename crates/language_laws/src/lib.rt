//! Laws of the meaning of scripts, and the proved meaning of small example scripts.
//!
//! Nothing here runs: each function has an empty body, and its contract is a law of the definitions in `language`.
#![tactic(auto)]

pub mod array_cores;
pub mod arrays;
pub mod examples;
pub mod headers;
pub mod laws;
