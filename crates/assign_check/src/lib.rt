//! Single-assignment check: verifies that each variable is assigned at most once on every control path, and is assigned
//! where it has to be.
//!
//! There are six rules; the first broken one is reported with its place. The script's own block and each function body
//! are reduced to an outline: a tree of declarations, uses, `if`s, loops and `wait`s. Three passes over each outline
//! find the faults, in `target_faults`, `count` and `use_summary`. The check runs on a well typed script, with the
//! table of its names.
#![tactic(auto)]

mod best;
mod counts;
pub mod fault;
pub mod laws;
mod outlining;
mod script;
mod summaries;
mod targets;

pub use script::check;
