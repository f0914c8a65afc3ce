//! The readiness of a board's items: which of them wait for which inputs, are ready, running or over, and were enabled
//! by the last event.
//!
//! Ready items are kept in a priority queue, waiting items in an index by input. No call visits all items.
#![tactic(auto)]

pub mod items;
pub mod laws;
pub mod readiness;
