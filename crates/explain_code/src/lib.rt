//! Explanations of compiled code: the line, the column and the source text of each body and entry of a listing.
#![tactic(auto)]

mod bodies;
pub mod lines;
