//! Listing of the code of a script: its bodies and entries as text, and as a graph in the language of `dot`.
#![tactic(auto)]

mod bodies;
mod drawing;
pub mod graph;
mod needs;
mod producers;
mod source_map;
pub mod text;
mod text_buffer;
