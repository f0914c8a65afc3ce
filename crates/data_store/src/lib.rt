//! The store of single-assignment data that tasks share: scalars and arrays, each with a count of remaining readers and
//! of remaining writers.
//!
//! A scalar is written once, and so is each element of an array. An array is closed when no writer is left, and a datum
//! is freed when neither reader nor writer is left: the two counts of the SC14 paper "Compiler Techniques for Massively
//! Scalable Implicit Task Parallelism". The store has no notion of tasks or code.
#![tactic(auto)]

mod datum;
mod dense_elements;
mod elements;
mod number_elements;
mod order;
pub mod refusal;
pub mod store;
mod text_elements;
