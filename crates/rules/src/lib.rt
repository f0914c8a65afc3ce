//! The subscription table of the dataflow runtime: the items that wait, their missing inputs, and a hash index from
//! inputs to items.
//!
//! `rules_table` has the table and its contracts. `waiter`, `missing` and `many_inputs` hold the missing inputs of one
//! item in compact form. `subscribers` is the index, and `visit` walks it when an input becomes known.
#![tactic(auto)]

pub mod input;
mod many_inputs;
mod missing;
pub mod rules_table;
mod subscribers;
mod visit;
mod waiter;
