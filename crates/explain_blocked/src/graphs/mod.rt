//! Directed graphs, their strongly connected components and their shortest cycles.

pub mod components;
pub mod graph;
pub mod numbers;
