//! Searches in refused scripts: the type that an expression should have, and the calls, loops and branches around a
//! place.
//!
//! Each search is by tokens, or by a walk over the syntax tree, and finds what a text about the refusal needs.
#![tactic(auto)]

pub mod calls;
pub mod declared;
pub mod scopes;
pub mod type_mismatch;
