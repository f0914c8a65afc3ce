//! Text output for diagnostics: lines and columns of offsets, source lines with a marked position, and numbers.
#![tactic(auto)]

pub mod line_index;
pub mod position;
pub mod quote;
pub mod words;
