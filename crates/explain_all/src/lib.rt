//! All mistakes of a refused script: after the first one, those that can be reported without a guess.
//!
//! The text is checked again with the part of the last mistake replaced by blanks or by something that fits, until
//! nothing is refused any more.
#![tactic(auto)]

pub mod explain;
mod mended_text;
pub mod mistakes;
mod reading;
mod search;
mod tokens;
mod type_parts;
mod typing;
mod variables;
