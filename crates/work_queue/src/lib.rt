//! Two priority queues of ready items, one of control items and one of leaf items, ordered by greatest priority and
//! then by smallest number.
//!
//! `queue` has the public type. `kind_queue` keeps the entries of one kind in a sorted run (`sorted_run`, `slot`).
//! Entries that do not fit there are kept in a balanced search tree (`tree`).
#![tactic(auto)]

pub mod entry;
mod kind_queue;
pub mod queue;
mod slot;
mod sorted_run;
mod tree;
